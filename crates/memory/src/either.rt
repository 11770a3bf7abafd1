//! A memory that is one of two kinds.
ghost use Rattle.memory.specs.Either.{by_either};

use crate::{Mark, Memory, MemoryFault};

/// A memory of the one kind or of the other: what it means is what the one inside means.
#[derive(Drop)]
pub enum EitherMemory<One, Other> {
    One(One),
    Other(Other),
}

impl<One: Memory, Other: Memory> Memory for EitherMemory<One, Other> {
    ghost marks = { λ memory. by_either One.marks Other.marks memory };

    ghost bytes = { λ memory. by_either One.bytes Other.bytes memory };

    ghost rest = { λ memory. by_either One.rest Other.rest memory };

    fn mark(&self, address: u16) -> Mark {
        match self {
            EitherMemory::One(memory) => memory.mark(address),
            EitherMemory::Other(memory) => memory.mark(address),
        }
    }

    fn read(&self, address: u16) -> Result<u8, MemoryFault> {
        match self {
            EitherMemory::One(memory) => memory.read(address),
            EitherMemory::Other(memory) => memory.read(address),
        }
    }

    fn write(&mut self, address: u16, byte: u8) -> Result<(), MemoryFault> {
        match self {
            EitherMemory::One(memory) => memory.write(address, byte),
            EitherMemory::Other(memory) => memory.write(address, byte),
        }
    }
}
