//! All that a machine holds beside its memory, and what instructions and entries do to it.
#![tactic(auto)]

mod entry;
pub mod privileged;
mod registers;
mod starting;
mod system;
mod table_writes;
mod waiting;

use paging::PageTable;

/// The system registers S0 to S7, by their roles.
#[derive(PartialEq, Eq, Debug, Drop)]
pub struct SystemRegisters {
    pub saved_status: u16,
    pub return_address: u16,
    pub event: u16,
    pub detail: u16,
    pub scratch: u16,
    pub entry_address: u16,
    pub stack_pointer: u16,
    /// Bit 0 is the mode, 1 for the system and 0 for the user; bit 1 says that interrupts are on.
    pub status: u16,
}

/// The words that come in and those that go out.
#[derive(PartialEq, Eq, Debug, Drop)]
pub struct Ports {
    pub inputs: [u16; 256],
    pub outputs: [u16; 256],
}

/// The page tables of fetches and of data accesses.
#[derive(PartialEq, Eq, Debug, Drop)]
pub struct Tables {
    pub instruction: PageTable,
    pub data: PageTable,
}

/// The state of a machine.
#[derive(PartialEq, Eq, Debug, Drop)]
pub struct State {
    pub registers: [u16; 8],
    pub pc: u16,
    pub system: SystemRegisters,
    pub ports: Ports,
    /// Whether each of the lines 0 to 7 waits.
    pub waiting: [bool; 8],
    pub tables: Tables,
    pub halted: bool,
}
