//! The waiting lines, as an instruction and the step see them.
ghost use Rattle.std.specs.Prelude.{◌≡◌, ◌<◌, IfSome};
ghost use Rattle.state.specs.Waiting.{interrupt_taken, is_interrupted, lowest_waiting};

use crate::State;
use instruction::Register;

/// The lowest line that waits.
fn lowest_waiting(waiting: &[bool; 8]) -> Option<usize>
    ensures value { result ≡ lowest_waiting waiting.now }
    ensures within { IfSome result (λ line. line < 8) }
{
    waiting.iter().position(|waits| *waits)
}

impl State {
    /// Whether interrupts are on and a line waits.
    pub fn is_interrupted(&self) -> bool
        ensures { result ≡ is_interrupted self.now }
    {
        self.system.interrupts_on() && lowest_waiting(&self.waiting).is_some()
    }

    /// GETIID: the lowest waiting line is given and cleared; 0 is given if none waits.
    pub fn take_interrupt(&mut self, d: Register)
        ensures { self.new ≡ interrupt_taken d self.old }
    {
        match lowest_waiting(&self.waiting) {
            None => self.set_register(d, 0),
            Some(line) => {
                self.waiting[line] = false;
                self.set_register(d, line as u16);
            }
        }
    }
}
