//! What the memory over a read-only and a writable buffer means, and its accesses.
ghost use Rattle.std.specs.Prelude.{◌-◌, ◌*◌, ◌<◌, length};
ghost use Rattle.memory.specs.Split.{split_marks, split_bytes, split_rest};

use crate::split::SplitMemory;
use crate::{FRAME_SIZE, Mark, Memory, MemoryFault};

impl Memory for SplitMemory<'_, '_> {
    ghost marks = { λ memory. split_marks (length memory.fixed.now) (length memory.plain.now) };

    ghost bytes = { λ memory. split_bytes memory.fixed.now memory.plain.now };

    ghost rest = { λ memory. split_rest (length memory.fixed.now) memory.plain.now memory.plain.ghost_name };

    fn mark(&self, address: u16) -> Mark {
        let frame = address as usize / FRAME_SIZE;
        let fixed = self.fixed.len() / FRAME_SIZE;
        if frame < fixed {
            Mark::Fixed
        } else if frame - fixed < self.plain.len() / FRAME_SIZE {
            Mark::Plain
        } else {
            Mark::Absent
        }
    }

    fn read(&self, address: u16) -> Result<u8, MemoryFault> {
        let at = address as usize;
        match self.mark(address) {
            Mark::Fixed => Ok(self.fixed[at]),
            Mark::Plain => Ok(self.plain[at - self.fixed.len() / FRAME_SIZE * FRAME_SIZE]),
            Mark::Absent => Err(MemoryFault::Absent),
        }
    }

    fn write(&mut self, address: u16, byte: u8) -> Result<(), MemoryFault> {
        self.mark(address).writable()?;
        let at = address as usize - self.fixed.len() / FRAME_SIZE * FRAME_SIZE;
        self.plain[at] = byte;
        Ok(())
    }
}
