//! A memory of one frame.
#![tactic(auto)]

pub mod meaning;

ghost use Rattle.std.specs.Prelude.{◌≡◌, replicate};
ghost use Rattle.oneframe.specs.contracts.meaning.OneFrameMemory.TheImpl.{ghosts as one};
ghost use Rattle.oneframe.specs.OneFrame.{one_marks, one_bytes};

/// Frame 0 is plain, and all others are absent.
#[derive(Drop)]
pub struct OneFrame {
    array: [u8; 1024],
}

impl OneFrame {
    /// The memory with zeros in its frame.
    pub fn zeroed() -> OneFrame
        ensures marks { one.marks result ≡ one_marks }
        ensures bytes { one.bytes result ≡ one_bytes (replicate 1024 0) }
    {
        OneFrame { array: [0; 1024] }
    }
}
