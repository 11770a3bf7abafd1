//! The memory over one lent buffer.
pub mod meaning;

ghost use Rattle.std.specs.Prelude.{◌≡◌, length};
ghost use Rattle.memory.specs.contracts.flat.meaning.FlatMemoryMemory.TheImpl.{ghosts as flat};
ghost use Rattle.memory.specs.Flat.{flat_marks, flat_bytes, flat_rest};

// A kind of its own beside the split memory, by a rule of the project.
/// A memory over one buffer of any length. Each frame that fits into the
/// buffer is plain, and all others are absent. What is left of the buffer behind the last frame is
/// neither read nor written.
#[derive(Drop)]
pub struct FlatMemory<'a> {
    buffer: &'a mut [u8],
}

impl<'a> FlatMemory<'a> {
    /// The memory over `buffer`.
    pub fn over(buffer: &'a mut [u8]) -> FlatMemory<'a>
        ensures marks { flat.marks result ≡ flat_marks (length buffer.old) }
        ensures bytes { flat.bytes result ≡ flat_bytes buffer.old }
        ensures rest { flat.rest result ≡ flat_rest buffer.old buffer.entry.ghost_name }
    {
        FlatMemory { buffer }
    }
}
