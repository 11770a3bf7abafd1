//! The events that the machine enters.
ghost use Rattle.std.specs.Prelude.{◌≡◌};
ghost use Rattle.translation.specs.Events.{code_of, fault_event};

use memory::MemoryFault;

/// Why the machine leaves the running program.
#[derive(Clone, Copy, PartialEq, Eq, Debug)]
pub enum Event {
    /// The word is no instruction.
    IllegalInstruction = 0,
    /// A word is asked for at an odd address.
    OddAddress = 1,
    /// The frame is not there.
    FrameAbsent = 5,
    /// No used entry of the instruction table has the page.
    NoInstructionEntry = 6,
    /// No used entry of the data table has the page.
    NoDataEntry = 7,
    /// The entry of the instruction table is not valid.
    InstructionNotValid = 8,
    /// The entry of the data table is not valid.
    DataNotValid = 9,
    /// User mode fetches from the system's half of the addresses.
    ProtectedInstruction = 10,
    /// User mode reads or writes in the system's half of the addresses.
    ProtectedData = 11,
    /// A store to a read-only entry or to a fixed frame.
    ReadOnly = 12,
    /// User mode meets a privileged instruction.
    Privileged = 13,
    /// The program calls the system.
    SystemCall = 14,
    /// A line waits.
    Interrupt = 15,
}

impl Event {
    /// The event's code.
    pub fn code(self) -> u16
        ensures { result ≡ code_of self }
    {
        self as u16
    }
}

impl From<MemoryFault> for Event {
    ghost from_gives = { λ v r. r ≡ fault_event v };

    fn from(fault: MemoryFault) -> Event {
        match fault {
            MemoryFault::Fixed => Event::ReadOnly,
            MemoryFault::Absent => Event::FrameAbsent,
        }
    }
}
