//! A buffer that is lent to a memory, used by code that knows no more than that it is one, and
//! what the buffer holds when it comes back.
ghost use Rattle.std.specs.Prelude.{◌≡◌, ℕ, length, slice_index};
ghost use Rattle.memory.specs.Meaning.{write_answer, written};
ghost use Rattle.memory.specs.Flat.{flat_marks, flat_bytes, flat_back};

use crate::flat::FlatMemory;
use crate::{Memory, MemoryFault};

fn write_to<Mem: Memory>(memory: &mut Mem, address: u16, byte: u8) -> Result<(), MemoryFault>
    ensures answer { result ≡ write_answer (Mem.marks memory.old) address }
    ensures bytes { Mem.bytes memory.new ≡ written (Mem.marks memory.old) (Mem.bytes memory.old) address byte }
    ensures rest { Mem.rest memory.new ≡ Mem.rest memory.old }
{
    memory.write(address, byte)
}

/// Writes `byte` at `address` of the memory over `buffer`.
pub fn store(buffer: &mut [u8], address: u16, byte: u8) -> Result<(), MemoryFault>
    ensures answer { result ≡ write_answer (flat_marks (length buffer.old)) address }
    ensures length { length buffer.new ≡ length buffer.old }
    ensures buffer { (k : ℕ) → slice_index buffer.new k ≡ flat_back buffer.old (written (flat_marks (length buffer.old)) (flat_bytes buffer.old) address byte) k }
{
    let mut memory = FlatMemory::over(buffer);
    write_to(&mut memory, address, byte)
}
