//! A load file, how far it has been read, and the records that it gives.
ghost use Rattle.std.specs.Prelude.{◌≡◌, ◌≤◌, length};
ghost use Rattle.records.specs.Records.{seen, item_of, block_in, end_in, record_in, record_of, size_of, after};

use crate::fault::RecordFault;
use crate::kind::Kind;

/// How long a load file may be.
pub const LONGEST_FILE: usize = 65535;

/// How long a block's body may be.
pub const LONGEST_BODY: usize = 1024;

// Each record begins with these two bytes and its kind.
const FIRST_MARK: u8 = 0x53;

const SECOND_MARK: u8 = 0x33;

/// How many bytes a block has but for its body.
const BLOCK_HEAD: usize = 7;

/// How many bytes an end record has.
const END_SIZE: usize = 5;

/// One record of a load file. The body of a block is borrowed from the file and not copied.
#[derive(Clone, Copy, PartialEq, Eq, Debug)]
pub enum Record<'a> {
    Block { address: u16, body: &'a [u8] },
    End { sum: u16 },
}

/// A load file and the position of its next record.
#[derive(Drop)]
pub struct Reader<'a> {
    file: &'a [u8],
    position: usize,
    ghost within: { position ≤ length file.now },
}

impl Record<'_> {
    /// How many bytes of the file the record takes.
    fn size(&self) -> usize
        ensures { result ≡ size_of (item_of self.now) }
    {
        match self {
            Record::Block { address: _, body } => BLOCK_HEAD + body.len(),
            Record::End { sum: _ } => END_SIZE,
        }
    }
}

impl<'a> Reader<'a> {
    ghost use Rattle.records.specs.Readings.{opened, open_of};

    /// A reader at the start of `file`, unless the file is too long.
    pub fn open(file: &'a [u8]) -> Result<Reader<'a>, RecordFault>
        ensures { opened result ≡ open_of file.now }
    {
        if file.len() > LONGEST_FILE {
            return Err(RecordFault::TooLong);
        }
        Ok(Reader { file, position: 0 })
    }

    /// Where the next record begins.
    pub fn position(&self) -> usize
        ensures { result ≡ self.now.position }
    {
        self.position
    }

    /// The record at the position, which moves behind it; a refusal moves nothing.
    pub fn next_record(&mut self) -> Result<Record<'a>, RecordFault>
        ensures record { seen result ≡ record_of self.old.file.now self.old.position }
        ensures position { self.new.position ≡ after self.old.position (seen result) }
        ensures file { self.new.file.now ≡ self.old.file.now }
    {
        let Reader { file, position } = self;
        let record = first_record(&file[*position..])?;
        *position += record.size();
        Ok(record)
    }
}

/// The record that `rest` begins with.
fn first_record(rest: &[u8]) -> Result<Record<'_>, RecordFault>
    ensures { seen result ≡ record_in rest.now }
{
    match rest {
        [FIRST_MARK, SECOND_MARK, kind, content @ ..] => match Kind::try_from(*kind)? {
            Kind::Block => block(content),
            Kind::End => end(content),
        },
        [_, _, _, ..] => Err(RecordFault::NoMark),
        _ => Err(RecordFault::CutShort),
    }
}

/// The block that follows its mark and kind.
fn block(content: &[u8]) -> Result<Record<'_>, RecordFault>
    ensures { seen result ≡ block_in content.now }
{
    let [address_low, address_high, count_low, count_high, rest @ ..] = content else {
        return Err(RecordFault::CutShort);
    };
    let address = u16::from_le_bytes([*address_low, *address_high]);
    let count = u16::from_le_bytes([*count_low, *count_high]) as usize;
    if count == 0 || count > LONGEST_BODY {
        return Err(RecordFault::BlockLength);
    }
    let body = rest.get(..count).ok_or(RecordFault::CutShort)?;
    Ok(Record::Block { address, body })
}

/// The end record that follows its mark and kind, with nothing after it.
fn end(content: &[u8]) -> Result<Record<'_>, RecordFault>
    ensures { seen result ≡ end_in content.now }
{
    match content {
        [low, high] => Ok(Record::End {
            sum: u16::from_le_bytes([*low, *high]),
        }),
        [_, _, ..] => Err(RecordFault::TrailingBytes),
        _ => Err(RecordFault::CutShort),
    }
}
