//! Fetches, loads and stores by logical address. What has passed its checks cannot fail any more.
#![tactic(auto)]

ghost use Rattle.std.specs.Prelude.{◌≡◌, ◌%◌, ◌≢◌};
ghost use Rattle.memory.specs.declared.Mark.TheVariants.{Absent, Plain};
ghost use Rattle.memory.specs.Meaning.{mark_at, put};
ghost use Rattle.access.specs.Accesses.{fetched, loaded, store_answer, stored, word_at, word_put};
ghost use Rattle.access.specs.Opening.{Confined};

use memory::Memory;
use translation::address::{Access, AddressSpace, Width};
use translation::event::Event;

// That a place has passed its checks is a `requires` of the four functions here: a type for such a
// place would have to name the memory that it was checked against. The definitions take the mode
// and the entries of a space apart, since of its table they speak of the entries alone.

fn read_byte<Mem: Memory>(memory: &Mem, at: u16) -> u8
    requires { mark_at (Mem.marks memory.now) at ≢ Absent }
    ensures { result ≡ Mem.bytes memory.now at }
{
    memory.read(at).unwrap()
}

// `word_at` of a file's bytes is the same rule in records: neither crate stands on the other.
/// The word at an even address, low byte first.
fn read_word<Mem: Memory>(memory: &Mem, at: u16) -> u16
    requires even { at % 2 ≡ 0 }
    requires there { mark_at (Mem.marks memory.now) at ≢ Absent }
    ensures { result ≡ word_at (Mem.bytes memory.now) at }
{
    u16::from_le_bytes([read_byte(memory, at), read_byte(memory, at + 1)])
}

fn write_byte<Mem: Memory>(memory: &mut Mem, at: u16, byte: u8)
    requires { mark_at (Mem.marks memory.old) at ≡ Plain }
    ensures bytes { Mem.bytes memory.new ≡ put (Mem.bytes memory.old) at byte }
    ensures marks { Mem.marks memory.new ≡ Mem.marks memory.old }
    ensures rest { Mem.rest memory.new ≡ Mem.rest memory.old }
{
    memory.write(at, byte).unwrap();
}

/// Writes a word at an even address, low byte first.
fn write_word<Mem: Memory>(memory: &mut Mem, at: u16, word: u16)
    requires even { at % 2 ≡ 0 }
    requires plain { mark_at (Mem.marks memory.old) at ≡ Plain }
    ensures bytes { Mem.bytes memory.new ≡ word_put (Mem.bytes memory.old) at word }
    ensures marks { Mem.marks memory.new ≡ Mem.marks memory.old }
    ensures rest { Mem.rest memory.new ≡ Mem.rest memory.old }
{
    let [low, high] = word.to_le_bytes();
    write_byte(memory, at, low);
    write_byte(memory, at + 1, high);
}

/// The instruction word at `address`, or the first check that its fetch fails.
pub fn fetch<Mem: Memory>(space: AddressSpace, memory: &Mem, address: u16) -> Result<u16, Event>
    ensures { result ≡ fetched space.entry.user space.entry.table.now.entries (Mem.marks memory.now) (Mem.bytes memory.now) address }
{
    let at = space.physical_address(memory, address, Access::Fetch, Width::Word)?;
    Ok(read_word(memory, at))
}

/// The word or the byte at `address`, or the first check that the access fails.
pub fn load<Mem: Memory>(
    space: AddressSpace,
    memory: &Mem,
    address: u16,
    width: Width,
) -> Result<u16, Event>
    ensures { result ≡ loaded space.entry.user space.entry.table.now.entries (Mem.marks memory.now) (Mem.bytes memory.now) width address }
{
    let at = space.physical_address(memory, address, Access::Load, width)?;
    match width {
        Width::Byte => Ok(read_byte(memory, at) as u16),
        Width::Word => Ok(read_word(memory, at)),
    }
}

/// Stores `value`, or its low byte, at `address`; if a check fails, answers the first one and
/// changes nothing.
pub fn store<Mem: Memory>(
    space: AddressSpace,
    memory: &mut Mem,
    address: u16,
    width: Width,
    value: u16,
) -> Result<(), Event>
    ensures answer { result ≡ store_answer space.entry.user space.entry.table.now.entries (Mem.marks memory.old) width address }
    ensures bytes { Mem.bytes memory.new ≡ stored space.entry.user space.entry.table.now.entries (Mem.marks memory.old) (Mem.bytes memory.old) width address value }
    ensures marks { Mem.marks memory.new ≡ Mem.marks memory.old }
    ensures rest { Mem.rest memory.new ≡ Mem.rest memory.old }
    ensures confined { Confined space.entry.user space.entry.table.now.entries (Mem.marks memory.old) address (Mem.bytes memory.old) (Mem.bytes memory.new) }
{
    let at = space.physical_address(memory, address, Access::Store, width)?;
    match width {
        Width::Byte => write_byte(memory, at, (value % 256) as u8),
        Width::Word => write_word(memory, at, value),
    }
    Ok(())
}
