//! How a fault is carried from the memory and the record reader up to the load, with nothing lost.
ghost use Rattle.std.specs.Prelude.{◌≡◌};
ghost use Rattle.faults.specs.Faults.{memory_misplaced, put_from_place, load_from_put, load_from_record, load_from_close};

use crate::{CloseFault, LoadFault, Misplaced, PlaceFault, PutFault};
use memory::MemoryFault;
use records::fault::RecordFault;

impl From<MemoryFault> for Misplaced {
    ghost from_gives = { λ v r. r ≡ memory_misplaced v };

    fn from(value: MemoryFault) -> Misplaced {
        Misplaced::Memory(value)
    }
}

impl From<PlaceFault> for PutFault {
    ghost from_gives = { λ v r. r ≡ put_from_place v };

    fn from(value: PlaceFault) -> PutFault {
        PutFault::Place(value)
    }
}

impl From<PutFault> for LoadFault {
    ghost from_gives = { λ v r. r ≡ load_from_put v };

    fn from(value: PutFault) -> LoadFault {
        match value {
            PutFault::BlockLength => LoadFault::BlockLength,
            PutFault::SumTooLarge => LoadFault::SumTooLarge,
            PutFault::Place(place) => LoadFault::Place(place),
        }
    }
}

impl From<RecordFault> for LoadFault {
    ghost from_gives = { λ v r. r ≡ load_from_record v };

    fn from(value: RecordFault) -> LoadFault {
        match value {
            RecordFault::NoMark => LoadFault::NoMark,
            RecordFault::CutShort => LoadFault::CutShort,
            RecordFault::UnknownKind => LoadFault::UnknownKind,
            RecordFault::BlockLength => LoadFault::BlockLength,
            RecordFault::TrailingBytes => LoadFault::TrailingBytes,
            RecordFault::TooLong => LoadFault::TooLong,
        }
    }
}

impl From<CloseFault> for LoadFault {
    ghost from_gives = { λ v r. r ≡ load_from_close v };

    fn from(_value: CloseFault) -> LoadFault {
        LoadFault::WrongSum
    }
}
