//! The machine at its start.
ghost use Rattle.std.specs.Prelude.{◌≡◌};
ghost use Rattle.state.specs.States.{start_state};

use crate::machine::Machine;
use state::State;

impl Machine {
    /// A machine at its start: all is zero, but it is in system mode, PC is 0x8000, and both tables
    /// map page i to frame i.
    pub fn start() -> Machine
        ensures { result.state ≡ start_state }
    {
        Machine {
            state: State::start(),
        }
    }

    /// Puts the machine back to its start, halted or not.
    pub fn reset(&mut self)
        ensures { self.new.state ≡ start_state }
    {
        self.state = State::start();
    }
}
