//! The instructions of system mode.
ghost use Rattle.std.specs.Prelude.{◌≡◌};
ghost use Rattle.state.specs.Control.{controlled, progress_of};

use crate::State;
use instruction::Privileged;

/// How an instruction ended that raised no event.
#[derive(Clone, Copy, PartialEq, Eq, Debug)]
pub enum Progress {
    Ran,
    Halted,
}

/// Bit 1 of a status word: interrupts are on.
const INTERRUPTS: u16 = 2;

impl State {
    // A match over the instructions of system mode: a rule of the project.
    /// Does what a privileged instruction says.
    pub fn control(&mut self, privileged: &Privileged) -> Progress
        ensures state { self.new ≡ controlled privileged.now self.old }
        ensures answer { result ≡ progress_of privileged.now }
    {
        match *privileged {
            Privileged::EnableInterrupts => {
                self.system.status = self.system.status % 2 + INTERRUPTS;
            }
            Privileged::DisableInterrupts => self.system.status %= 2,
            Privileged::ReturnFromEvent => {
                self.system.status = self.system.saved_status;
                self.pc = self.system.return_address;
            }
            Privileged::GetInterrupt { d } => self.take_interrupt(d),
            Privileged::ReadSystem { d, s } => {
                let word = self.system.read(s);
                self.set_register(d, word);
            }
            Privileged::WriteSystem { s, a } => {
                let word = self.register(a);
                self.system.write(s, word);
            }
            Privileged::WriteEntry { table, field, b, a } => {
                let index = self.register(a);
                let word = self.register(b);
                self.tables.write_entry(table, field, index, word);
            }
            Privileged::Flush { a } => {
                let which = self.register(a);
                self.tables.flush(which);
            }
            Privileged::Halt => {
                self.halted = true;
                return Progress::Halted;
            }
        }
        Progress::Ran
    }
}
