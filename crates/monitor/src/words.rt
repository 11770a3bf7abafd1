//! A line, word by word.
ghost use Rattle.std.specs.Prelude.{◌≡◌};
ghost use Rattle.monitor.specs.Words.{split, split_behind, split_of};

use names::first_word;

/// The first word of a line, and what stands behind the blank after it, if there is one.
#[derive(Clone, Copy, PartialEq, Eq, Debug)]
pub struct Split<'a> {
    pub word: &'a [u8],
    pub rest: Option<&'a [u8]>,
}

/// Splits a line behind its first word.
pub fn split_word<'a>(line: &'a [u8]) -> Split<'a>
    ensures { split result ≡ split_of line.now }
{
    split_behind(line, first_word(line))
}

/// Splits a line behind a word that it begins with.
pub fn split_behind<'a>(line: &'a [u8], word: &'a [u8]) -> Split<'a>
    ensures { split result ≡ split_behind word.now line.now }
{
    Split {
        word,
        rest: line.get(word.len() + 1..),
    }
}
