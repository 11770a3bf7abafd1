//! The lines that wait for the system.
ghost use Rattle.std.specs.Prelude.{◌≡◌};
ghost use Rattle.machine.specs.Calls.{raise_answer, raised_on, waiting_reading};

use crate::machine::Machine;
use answers::Refusal;

impl Machine {
    /// Marks a line as waiting. It does not wake a halted machine.
    pub fn raise(&mut self, line: u32) -> Result<(), Refusal>
        ensures answer { result ≡ raise_answer line }
        ensures state { self.new.state ≡ raised_on line self.old.state }
    {
        // By index: once what `get_mut` lends is over, no clause says what the array holds.
        let line = line as usize;
        if line >= self.state.waiting.len() {
            return Err(Refusal::NoSuchLine);
        }
        self.state.waiting[line] = true;
        Ok(())
    }

    /// Whether a line waits.
    pub fn is_waiting(&self, line: u32) -> Result<bool, Refusal>
        ensures { result ≡ waiting_reading line self.now.state.waiting }
    {
        self.state
            .waiting
            .get(line as usize)
            .copied()
            .ok_or(Refusal::NoSuchLine)
    }
}
