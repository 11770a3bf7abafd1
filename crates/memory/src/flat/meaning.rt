//! What the memory over one buffer means, and its accesses.
ghost use Rattle.std.specs.Prelude.{length};
ghost use Rattle.memory.specs.Flat.{flat_marks, flat_bytes, flat_rest};

use crate::flat::FlatMemory;
use crate::{FRAME_SIZE, Mark, Memory, MemoryFault};

impl Memory for FlatMemory<'_> {
    ghost marks = { λ memory. flat_marks (length memory.buffer.now) };

    ghost bytes = { λ memory. flat_bytes memory.buffer.now };

    ghost rest = { λ memory. flat_rest memory.buffer.now memory.buffer.ghost_name };

    fn mark(&self, address: u16) -> Mark {
        if address as usize / FRAME_SIZE < self.buffer.len() / FRAME_SIZE {
            Mark::Plain
        } else {
            Mark::Absent
        }
    }

    fn read(&self, address: u16) -> Result<u8, MemoryFault> {
        self.mark(address).readable()?;
        Ok(self.buffer[address as usize])
    }

    fn write(&mut self, address: u16, byte: u8) -> Result<(), MemoryFault> {
        self.mark(address).writable()?;
        self.buffer[address as usize] = byte;
        Ok(())
    }
}
