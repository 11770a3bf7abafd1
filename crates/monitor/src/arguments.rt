//! What stands behind a command's name.
ghost use Rattle.std.specs.Prelude.{◌≡◌};
ghost use Rattle.monitor.specs.Words.{lent};
ghost use Rattle.monitor.specs.Numbers.{Within};
ghost use Rattle.monitor.specs.Arguments.{BothWithin, one_number, two_numbers};

use crate::numbers::parse_number;
use crate::words::split_word;

/// One number of at most `most`.
pub fn one_number(rest: Option<&[u8]>, most: u32) -> Option<u32>
    ensures value { result ≡ one_number (lent rest.entry) most }
    ensures bound { Within most result }
{
    parse_number(rest?, most)
}

/// Two numbers, of at most `first_most` and `second_most`.
pub fn two_numbers(rest: Option<&[u8]>, first_most: u32, second_most: u32) -> Option<(u32, u32)>
    ensures value { result ≡ two_numbers (lent rest.entry) first_most second_most }
    ensures bound { BothWithin first_most second_most result }
{
    let words = split_word(rest?);
    let first = parse_number(words.word, first_most)?;
    let second = one_number(words.rest, second_most)?;
    Some((first, second))
}
