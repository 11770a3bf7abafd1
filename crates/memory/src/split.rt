//! The memory over a read-only and a writable buffer.
pub mod meaning;

ghost use Rattle.std.specs.Prelude.{◌≡◌, length};
ghost use Rattle.memory.specs.contracts.split.meaning.SplitMemoryMemory.TheImpl.{ghosts as split};
ghost use Rattle.memory.specs.Split.{split_marks, split_bytes, split_rest};

/// A memory over a read-only and a writable buffer of any lengths. As many fixed frames
/// as fit into the first begin at frame 0, and as many plain ones as fit into the second follow
/// them, up to frame 63.
#[derive(Drop)]
pub struct SplitMemory<'f, 'p> {
    fixed: &'f [u8],
    plain: &'p mut [u8],
}

impl<'f, 'p> SplitMemory<'f, 'p> {
    /// The memory over `fixed` and, behind its whole frames, `plain`.
    pub fn over(fixed: &'f [u8], plain: &'p mut [u8]) -> SplitMemory<'f, 'p>
        ensures marks { split.marks result ≡ split_marks (length fixed.now) (length plain.old) }
        ensures bytes { split.bytes result ≡ split_bytes fixed.now plain.old }
        ensures rest { split.rest result ≡ split_rest (length fixed.now) plain.old plain.entry.ghost_name }
    {
        SplitMemory { fixed, plain }
    }
}
