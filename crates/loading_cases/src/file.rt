//! Load files, written record by record.
use std::alloc::{AllocError, Global};

/// The records of a file so far.
#[derive(Drop)]
pub(crate) struct Blocks {
    bytes: Vec<u8>,
}

impl Blocks {
    /// No record yet.
    pub(crate) fn new(heap: Global) -> Blocks {
        Blocks {
            bytes: Vec::new(heap),
        }
    }

    /// One block more, at most as long as 16 bits can say.
    pub(crate) fn block(&mut self, address: u16, body: &[u8]) -> anyhow::Result<()> {
        let count = u16::try_from(body.len())?;
        self.bytes.extend_from_slice(&[0x53, 0x33, 1])?;
        self.bytes.extend_from_slice(&address.to_le_bytes())?;
        self.bytes.extend_from_slice(&count.to_le_bytes())?;
        self.bytes.extend_from_slice(body)?;
        Ok(())
    }

    /// The file, ended with this sum.
    pub(crate) fn end(mut self, sum: u16) -> Result<Vec<u8>, AllocError> {
        self.bytes.extend_from_slice(&[0x53, 0x33, 2])?;
        self.bytes.extend_from_slice(&sum.to_le_bytes())?;
        let Blocks { bytes } = self;
        Ok(bytes)
    }
}
