//! The system registers and the status word.
ghost use Rattle.std.specs.Prelude.{◌≡◌};
ghost use Rattle.state.specs.States.{system_at};
ghost use Rattle.state.specs.Status.{interrupts_on, is_user, system_set};

use crate::SystemRegisters;
use instruction::SystemRegister;

impl SystemRegisters {
    /// Whether bit 0 of the status word says user mode.
    pub fn is_user(&self) -> bool
        ensures { result ≡ is_user self.now.status }
    {
        self.status % 2 == 0
    }

    /// Whether bit 1 of the status word says that interrupts are on.
    pub fn interrupts_on(&self) -> bool
        ensures { result ≡ interrupts_on self.now.status }
    {
        self.status / 2 % 2 == 1
    }

    /// The value of a system register.
    pub fn read(&self, s: SystemRegister) -> u16
        ensures { result ≡ system_at s self.now }
    {
        match s {
            SystemRegister::SavedStatus => self.saved_status,
            SystemRegister::ReturnAddress => self.return_address,
            SystemRegister::Event => self.event,
            SystemRegister::Detail => self.detail,
            SystemRegister::Scratch => self.scratch,
            SystemRegister::EntryAddress => self.entry_address,
            SystemRegister::StackPointer => self.stack_pointer,
            SystemRegister::Status => self.status,
        }
    }

    /// A system register takes `word`; a status word keeps two bits and the event four.
    pub fn write(&mut self, s: SystemRegister, word: u16)
        ensures { self.new ≡ system_set s word self.old }
    {
        match s {
            SystemRegister::SavedStatus => self.saved_status = word % 4,
            SystemRegister::ReturnAddress => self.return_address = word,
            SystemRegister::Event => self.event = word % 16,
            SystemRegister::Detail => self.detail = word,
            SystemRegister::Scratch => self.scratch = word,
            SystemRegister::EntryAddress => self.entry_address = word,
            SystemRegister::StackPointer => self.stack_pointer = word,
            SystemRegister::Status => self.status = word % 4,
        }
    }
}
