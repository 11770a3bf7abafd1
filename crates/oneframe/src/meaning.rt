//! What a memory of one frame means, and its accesses.
ghost use Rattle.oneframe.specs.OneFrame.{one_marks, one_bytes, one_rest};

use crate::OneFrame;
use memory::{FRAME_SIZE, Mark, Memory, MemoryFault};

// Written out whole, as a maker writes a memory: it shares the trait with the others, and no buffer.
impl Memory for OneFrame {
    ghost marks = { λ memory. one_marks };

    ghost bytes = { λ memory. one_bytes memory.array };

    ghost rest = { λ memory. one_rest };

    fn mark(&self, address: u16) -> Mark {
        if (address as usize) < FRAME_SIZE {
            Mark::Plain
        } else {
            Mark::Absent
        }
    }

    fn read(&self, address: u16) -> Result<u8, MemoryFault> {
        self.mark(address).readable()?;
        Ok(self.array[address as usize])
    }

    fn write(&mut self, address: u16, byte: u8) -> Result<(), MemoryFault> {
        self.mark(address).writable()?;
        self.array[address as usize] = byte;
        Ok(())
    }
}
