//! Why a file is refused by the record reader.
ghost use Rattle.std.specs.Prelude.{◌≡◌};
ghost use Rattle.records.specs.Faults.{record_number};

/// What is wrong with a load file, or with the record at the reader's position. Each fault has
/// the number by which the format knows it.
#[derive(Clone, Copy, PartialEq, Eq, Debug)]
pub enum RecordFault {
    NoMark = 10,
    CutShort = 11,
    UnknownKind = 12,
    BlockLength = 13,
    TrailingBytes = 16,
    TooLong = 18,
}

impl RecordFault {
    /// The number by which the refusal is known.
    pub fn number(self) -> u8
        ensures { result ≡ record_number self }
    {
        self as u8
    }
}
