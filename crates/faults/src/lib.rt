//! Why a block, a closing sum or a whole file is refused, and how one fault becomes another.
#![tactic(auto)]

pub mod convert;
pub mod display;

ghost use Rattle.std.specs.Prelude.{◌≡◌};
ghost use Rattle.faults.specs.Faults.{put_number, close_number, load_number};

use memory::MemoryFault;

/// Why a byte cannot be written at its address: the memory's own fault, or there is no such
/// address.
#[derive(Clone, Copy, PartialEq, Eq, Debug)]
pub enum Misplaced {
    Memory(MemoryFault),
    Past,
}

/// The first byte of a block that cannot be written: why, and its address, which needs 17 bits.
#[derive(Clone, Copy, PartialEq, Eq, Debug)]
pub struct PlaceFault {
    pub fault: Misplaced,
    pub address: u32,
}

/// Why a ticket refuses a block.
#[derive(Clone, Copy, PartialEq, Eq, Debug)]
pub enum PutFault {
    BlockLength,
    SumTooLarge,
    Place(PlaceFault),
}

/// The sum that a ticket is closed with is not its own.
#[derive(Clone, Copy, PartialEq, Eq, Debug)]
pub struct CloseFault;

/// Why a load file is refused.
#[derive(Clone, Copy, PartialEq, Eq, Debug)]
pub enum LoadFault {
    NoMark,
    CutShort,
    UnknownKind,
    BlockLength,
    Place(PlaceFault),
    WrongSum,
    TrailingBytes,
    SumTooLarge,
    TooLong,
}

impl PutFault {
    /// The number by which the refusal is known.
    pub fn number(self) -> u8
        ensures { result ≡ put_number self }
    {
        LoadFault::from(self).number()
    }
}

impl CloseFault {
    /// The number by which the refusal is known.
    pub fn number(self) -> u8
        ensures { result ≡ close_number self }
    {
        LoadFault::WrongSum.number()
    }
}

impl LoadFault {
    /// The number by which the refusal is known.
    pub fn number(self) -> u8
        ensures { result ≡ load_number self }
    {
        // One variant carries its place, so the numbers cannot stand beside the variants.
        match self {
            LoadFault::NoMark => 10,
            LoadFault::CutShort => 11,
            LoadFault::UnknownKind => 12,
            LoadFault::BlockLength => 13,
            LoadFault::Place(_) => 14,
            LoadFault::WrongSum => 15,
            LoadFault::TrailingBytes => 16,
            LoadFault::SumTooLarge => 17,
            LoadFault::TooLong => 18,
        }
    }
}
