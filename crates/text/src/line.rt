//! A text under way.
ghost use Rattle.std.specs.Prelude.{◌≡◌, ◌≤◌, [], ◌∷◌, length};
ghost use Rattle.text.specs.Lines.{grown};

use crate::LINE;
use std::marker::Model;

/// A text of at most 24 bytes: what does not fit is left out.
// A fixed buffer with its length, since the core has no heap: what passes it is cut, where a push
// into an `ArrayVec` would fail.
#[derive(Drop)]
pub struct Line {
    bytes: [u8; 24],
    used: usize,
}

impl Model for Line {
    ghost use Rattle.std.specs.Prelude.{ℕ, ◌≤◌, List, take};

    ghost Value = { List ℕ };

    ghost view = { λ line. take line.used line.bytes };

    ghost invariant = { λ line. line.used ≤ 24 };
}

impl Line {
    /// The empty text.
    pub fn new() -> Line
        ensures { result ≡ [] }
    {
        Line {
            bytes: [0; 24],
            used: 0,
        }
    }

    /// The bytes of the text.
    pub fn text(&self) -> &[u8]
        ensures text { result.now ≡ self.now }
        ensures bound { length self.now ≤ 24 }
    {
        &self.bytes[0..self.used]
    }

    /// One more byte.
    pub fn push(&mut self, byte: u8)
        ensures { self.new ≡ grown self.old (byte ∷ []) }
    {
        if self.used < LINE {
            self.bytes[self.used] = byte;
            self.used += 1;
        }
    }

    /// More bytes.
    pub fn push_all(&mut self, bytes: &[u8])
        ensures { self.new ≡ grown self.old bytes.now }
    {
        for byte in bytes {
            self.push(*byte);
        }
    }
}
