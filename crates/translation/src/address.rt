//! The checks that an access meets, in their order, and the physical address that it comes to.
ghost use Rattle.std.specs.Prelude.{◌≡◌};
ghost use Rattle.translation.specs.Addresses.{is_misaligned, is_protected, no_entry, not_valid, physical_address, placed, protected, through};

use crate::event::Event;
use memory::Memory;
use paging::{PAGE_SIZE, Page, PageEntry, PageTable};

/// The first address of the half that user mode may not use.
pub const SYSTEM_HALF: u16 = 0x8000;

/// How much an access reads or writes.
#[derive(Clone, Copy, PartialEq, Eq, Debug)]
pub enum Width {
    Byte,
    Word,
}

impl Width {
    /// Whether an access of this width may not lie at `address`.
    fn is_misaligned(self, address: u16) -> bool
        ensures { result ≡ is_misaligned self address }
    {
        match self {
            Width::Byte => false,
            Width::Word => address % 2 == 1,
        }
    }
}

/// What an access does: it fetches an instruction, or it loads or stores data.
#[derive(Clone, Copy, PartialEq, Eq, Debug)]
pub enum Access {
    Fetch,
    Load,
    Store,
}

impl Access {
    /// The event of user mode in the system's half.
    fn protected(self) -> Event
        ensures { result ≡ protected self }
    {
        match self {
            Access::Fetch => Event::ProtectedInstruction,
            Access::Load | Access::Store => Event::ProtectedData,
        }
    }

    /// The event of a page that no used entry has.
    fn no_entry(self) -> Event
        ensures { result ≡ no_entry self }
    {
        match self {
            Access::Fetch => Event::NoInstructionEntry,
            Access::Load | Access::Store => Event::NoDataEntry,
        }
    }

    /// The event of an entry that is not valid.
    fn not_valid(self) -> Event
        ensures { result ≡ not_valid self }
    {
        match self {
            Access::Fetch => Event::InstructionNotValid,
            Access::Load | Access::Store => Event::DataNotValid,
        }
    }
}

/// Where the frame of `entry` has `address`.
fn place(entry: PageEntry, address: u16) -> u16
    ensures { result ≡ placed entry address }
{
    entry.physical_field.frame() as u16 * PAGE_SIZE + address % PAGE_SIZE
}

/// The physical address that an access comes to through an entry, or the first check that it fails.
fn through<Mem: Memory>(
    entry: PageEntry,
    memory: &Mem,
    address: u16,
    access: Access,
) -> Result<u16, Event>
    ensures { result ≡ through access entry (Mem.marks memory.now) address }
{
    if !entry.physical_field.is_valid() {
        return Err(access.not_valid());
    }
    if access == Access::Store && entry.physical_field.is_read_only() {
        return Err(Event::ReadOnly);
    }
    let at = place(entry, address);
    let mark = memory.mark(at);
    match access {
        Access::Fetch | Access::Load => mark.readable()?,
        Access::Store => mark.writable()?,
    }
    Ok(at)
}

/// What a program sees of the memory: its mode, and the table that maps its pages.
#[derive(Clone, Copy, PartialEq, Eq, Debug)]
pub struct AddressSpace<'t> {
    pub user: bool,
    pub table: &'t PageTable,
}

impl<'t> AddressSpace<'t> {
    /// Whether the mode may not use `address`.
    fn protects(self, address: u16) -> bool
        ensures { result ≡ is_protected self.entry.user address }
    {
        self.user && address >= SYSTEM_HALF
    }

    /// The physical address of the instruction or the data at `address`, or the first check that
    /// the access fails.
    pub fn physical_address<Mem: Memory>(
        self,
        memory: &Mem,
        address: u16,
        access: Access,
        width: Width,
    ) -> Result<u16, Event>
        ensures { result ≡ physical_address self.entry.user self.entry.table.now.entries (Mem.marks memory.now) access width address }
    {
        if width.is_misaligned(address) {
            return Err(Event::OddAddress);
        }
        if self.protects(address) {
            return Err(access.protected());
        }
        let page = Page::holding(address);
        let entry = self.table.lookup(page).ok_or(access.no_entry())?;
        through(entry, memory, address, access)
    }
}
