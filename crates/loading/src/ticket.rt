//! The right to put blocks into a memory, which has to be closed or abandoned.
pub mod put;

ghost use Rattle.std.specs.Prelude.{◌≡◌, true, false};
ghost use Rattle.loading.specs.Closing.{close_of};

use faults::CloseFault;

/// A load in progress: the sum of the lengths of its blocks, and whether it is over.
pub struct Ticket {
    sum: u16,
    // A ticket is plain numbers by a rule of the project, so the proof, and not a move, refuses its
    // use after the end.
    spent: bool,
}

/// A ticket that is neither closed nor abandoned may not be let go.
impl Drop for Ticket {
    fn drop(self)
        requires { self.spent ≡ true }
    {
        let Ticket { sum: _, spent: _ } = self;
    }
}

impl Ticket {
    /// A new ticket, with no block put.
    pub fn open() -> Ticket
        ensures sum { result.sum ≡ 0 }
        ensures spent { result.spent ≡ false }
    {
        Ticket {
            sum: 0,
            spent: false,
        }
    }

    /// Ends the load: answers the ticket's sum, or a refusal if `sum` is another.
    pub fn close(&mut self, sum: u16) -> Result<u16, CloseFault>
        requires { self.old.spent ≡ false }
        ensures answer { result ≡ close_of self.old.sum sum }
        ensures sum { self.new.sum ≡ self.old.sum }
        ensures spent { self.new.spent ≡ true }
    {
        self.spent = true;
        if self.sum == sum {
            Ok(self.sum)
        } else {
            Err(CloseFault)
        }
    }

    /// Gives the load up, and answers the ticket's sum.
    pub fn abandon(&mut self) -> u16
        requires { self.old.spent ≡ false }
        ensures answer { result ≡ self.old.sum }
        ensures sum { self.new.sum ≡ self.old.sum }
        ensures spent { self.new.spent ≡ true }
    {
        self.spent = true;
        self.sum
    }
}
