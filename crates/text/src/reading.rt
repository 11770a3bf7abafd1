//! Reading a text back.
ghost use Rattle.std.specs.Prelude.{◌≡◌};
ghost use Rattle.std.specs.Str.{bytes_eq};
ghost use Rattle.text.specs.Calls.{ReadsAs, ReadsBack};
ghost use Rattle.text.specs.Text.{text_of};

use crate::candidate::candidate;
use crate::writing::text_line;
use crate::{LINE, TextRefusal};

/// The word whose text this is, byte for byte.
pub fn read_text(text: &[u8]) -> Result<u16, TextRefusal>
    ensures word { ReadsAs text.now result }
    ensures back { ReadsBack text.now result }
{
    // No word's text is longer, so a longer one is refused without a look at its bytes.
    if text.len() > LINE {
        return Err(TextRefusal::NoWord);
    }
    let word = candidate(text);
    if is_text_of(word, text) {
        Ok(word)
    } else {
        Err(TextRefusal::NoWord)
    }
}

/// Whether a word has this text.
fn is_text_of(word: u16, text: &[u8]) -> bool
    ensures { result ≡ bytes_eq (text_of word) text.now }
{
    text_line(word).text() == text
}
