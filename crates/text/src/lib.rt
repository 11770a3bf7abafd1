//! The text of a word, and the word of a text.
#![tactic(auto)]

ghost use Rattle.std.specs.Prelude.{◌≡◌};
ghost use Rattle.text.specs.Calls.{refusal_number};

mod candidate;
mod line;
mod reading;
mod syntax;
mod writing;

pub use reading::read_text;
pub use writing::write_text;

/// The least length of a buffer that a text is written into.
pub const LINE: usize = 24;

/// Why a text is not read or not written.
#[derive(Clone, Copy, PartialEq, Eq, Debug)]
pub enum TextRefusal {
    /// It is the text of no word.
    NoWord = 20,
    /// The buffer has fewer than 24 bytes.
    ShortBuffer = 21,
}

impl TextRefusal {
    /// The number of a refusal.
    pub fn number(self) -> u8
        ensures { result ≡ refusal_number self }
    {
        self as u8
    }
}
