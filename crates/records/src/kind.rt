//! The kinds of records.
ghost use Rattle.std.specs.Prelude.{◌≡◌};
ghost use Rattle.records.specs.Kinds.{kind_by};

use crate::fault::RecordFault;

/// What a record says, by its third byte.
#[derive(Clone, Copy, PartialEq, Eq, Debug)]
pub(crate) enum Kind {
    Block,
    End,
}

impl TryFrom<u8> for Kind {
    type Error = RecordFault;

    ghost try_from_gives = { λ byte kind. kind ≡ kind_by byte };

    fn try_from(byte: u8) -> Result<Kind, RecordFault> {
        match byte {
            1 => Ok(Kind::Block),
            2 => Ok(Kind::End),
            _ => Err(RecordFault::UnknownKind),
        }
    }
}
