//! A text, line by line.
ghost use Rattle.std.specs.Prelude.{◌≡◌};
ghost use Rattle.monitor.specs.Words.{split};
ghost use Rattle.monitor.specs.Lines.{lines_of};

use crate::words::{Split, split_behind};
use names::before;

/// Splits a text behind its first line, which is the word of what is answered.
pub fn split_line<'a>(text: &'a [u8]) -> Split<'a>
    ensures { split result ≡ lines_of text.now }
{
    split_behind(text, before(text, b'\n'))
}
