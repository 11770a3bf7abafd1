//! A page table: 64 entries, each with a virtual field and a physical field.
#![tactic(auto)]

ghost use Rattle.std.specs.Prelude.{◌≡◌, ◌<◌};
ghost use Rattle.paging.specs.Tables.{flushed, frame_of, is_for, is_read_only, is_used, is_valid, lookup_of, page_at, page_of, physical_of, physical_set, start_entries, start_entry, unused, virtual_of, virtual_set};

use search::{Entry, first_match};

/// How many entries a table has, and how many pages there are.
pub const ENTRIES: usize = 64;

/// How many addresses lie in a page.
pub const PAGE_SIZE: u16 = 1024;

const PAGES: u8 = 64;

const USED: u8 = 64;

const VIRTUAL_VALUES: u8 = 128;

const FRAMES: u8 = 64;

const READ_ONLY: u8 = 64;

const VALID: u8 = 128;

/// The virtual field of an entry: bits 5..0 are a page, and bit 6 says that the entry is used.
#[derive(Clone, Copy, PartialEq, Eq, Debug)]
pub struct VirtualField {
    bits: u8,
}

impl VirtualField {
    /// The field that `word` gives; its bits 15..7 are dropped.
    pub fn new(word: u16) -> VirtualField
        ensures { result ≡ virtual_of word }
    {
        VirtualField {
            bits: (word % 128) as u8,
        }
    }

    pub fn page(self) -> u8
        ensures { result ≡ page_of self }
    {
        self.bits % PAGES
    }

    pub fn is_used(self) -> bool
        ensures { result ≡ is_used self }
    {
        self.bits / USED % 2 == 1
    }
}

// A type of its own beside `VirtualField`: a frame is no page, and what the two share is one line.
/// The physical field of an entry: bits 5..0 are a frame, bit 6 says that it is read-only, and
/// bit 7 that the entry is valid.
#[derive(Clone, Copy, PartialEq, Eq, Debug)]
pub struct PhysicalField {
    bits: u8,
}

impl PhysicalField {
    /// The field that `word` gives; its bits 15..8 are dropped.
    pub fn new(word: u16) -> PhysicalField
        ensures { result ≡ physical_of word }
    {
        PhysicalField {
            bits: (word % 256) as u8,
        }
    }

    pub fn frame(self) -> u8
        ensures { result ≡ frame_of self }
    {
        self.bits % FRAMES
    }

    pub fn is_read_only(self) -> bool
        ensures { result ≡ is_read_only self }
    {
        self.bits / READ_ONLY % 2 == 1
    }

    pub fn is_valid(self) -> bool
        ensures { result ≡ is_valid self }
    {
        self.bits / VALID % 2 == 1
    }
}

/// An entry of a page table.
#[derive(Clone, Copy, PartialEq, Eq, Debug)]
pub struct PageEntry {
    pub virtual_field: VirtualField,
    pub physical_field: PhysicalField,
}

impl PageEntry {
    /// The same entry, but not used.
    fn unused(self) -> PageEntry
        ensures { result ≡ unused self }
    {
        PageEntry {
            virtual_field: VirtualField {
                bits: self.virtual_field.page(),
            },
            physical_field: self.physical_field,
        }
    }
}

/// The entry that maps page `index` to frame `index`, used and valid.
fn start_entry(index: u16) -> PageEntry
    requires { index < 64 }
    ensures { result ≡ start_entry index }
{
    PageEntry {
        virtual_field: VirtualField::new(64 + index),
        physical_field: PhysicalField::new(128 + index),
    }
}

fn flush_entries(entries: &mut [PageEntry])
    ensures { entries.new ≡ flushed entries.old }
{
    for entry in entries.iter_mut() {
        *entry = entry.unused();
    }
}

/// A page, by its number.
#[derive(Clone, Copy, PartialEq, Eq, Debug)]
pub struct Page {
    pub number: u8,
}

impl Page {
    /// The page that holds `address`.
    pub fn holding(address: u16) -> Page
        ensures { result.number ≡ page_at address }
    {
        Page {
            number: (address / PAGE_SIZE) as u8,
        }
    }
}

impl Entry for PageEntry {
    type Key = Page;

    ghost matched = { λ e page. is_for page.number e };

    // One comparison of the seven bits says that the entry is used and has the page: a look-up asks
    // it of up to 64 entries.
    fn matches(&self, page: Page) -> bool {
        u16::from(self.virtual_field.bits % VIRTUAL_VALUES)
            == u16::from(USED) + u16::from(page.number)
    }
}

/// A page table.
#[derive(Clone, Copy, PartialEq, Eq, Debug)]
pub struct PageTable {
    entries: [PageEntry; ENTRIES],
}

impl PageTable {
    /// The table of a machine at its start, by which each page is the frame of the same number.
    pub fn start() -> PageTable
        ensures { result.entries ≡ start_entries }
    {
        PageTable {
            entries: std::array::from_fn(|index| start_entry(index as u16)),
        }
    }

    /// The first used entry for a page.
    pub fn lookup(&self, page: Page) -> Option<PageEntry>
        ensures { result ≡ lookup_of self.now.entries page.number }
    {
        first_match(&self.entries, page)
    }

    // Two methods of one line: one for both would take the field's kind besides.
    /// Entry `index` modulo 64 takes `word` as its virtual field.
    pub fn set_virtual(&mut self, index: u16, word: u16)
        ensures { self.new.entries ≡ virtual_set self.old.entries index word }
    {
        self.entries[index as usize % ENTRIES].virtual_field = VirtualField::new(word);
    }

    /// Entry `index` modulo 64 takes `word` as its physical field.
    pub fn set_physical(&mut self, index: u16, word: u16)
        ensures { self.new.entries ≡ physical_set self.old.entries index word }
    {
        self.entries[index as usize % ENTRIES].physical_field = PhysicalField::new(word);
    }

    /// No entry is used any more; all else stays.
    pub fn flush(&mut self)
        ensures { self.new.entries ≡ flushed self.old.entries }
    {
        flush_entries(&mut self.entries);
    }
}
