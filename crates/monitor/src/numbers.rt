//! The numbers of commands.
ghost use Rattle.std.specs.Prelude.{◌≡◌};
ghost use Rattle.monitor.specs.Numbers.{Within, with_digit, digits_of, number_of};

/// What a number in hexadecimal begins with.
const HEXADECIMAL: &[u8] = b"0x";

// That a number is at most what it may be is a clause of each function: a type for it would have to
// carry the most that it may be.
/// A number in decimal, or in hexadecimal after `0x`, if it is well-formed and at most `most`.
pub fn parse_number(word: &[u8], most: u32) -> Option<u32>
    ensures value { result ≡ number_of word.now most }
    ensures bound { Within most result }
{
    match word.strip_prefix(HEXADECIMAL) {
        Some(digits) => parse_digits(digits, 16, most),
        None => parse_digits(word, 10, most),
    }
}

// Not `from_str_radix`, which takes a sign and a `str`.
/// A number of one or more digits.
fn parse_digits(digits: &[u8], base: u32, most: u32) -> Option<u32>
    ensures value { result ≡ digits_of base most digits.now }
    ensures bound { Within most result }
{
    if digits.is_empty() {
        return None;
    }
    let mut value = 0;
    for digit in digits {
        value = with_digit(value, *digit, base, most)?;
    }
    Some(value)
}

/// The number whose digits are those of `high` and one more, if that is one of the base.
fn with_digit(high: u32, digit: u8, base: u32, most: u32) -> Option<u32>
    ensures value { result ≡ with_digit base most high digit }
    ensures bound { Within most result }
{
    let low = (digit as char).to_digit(16).filter(|low| *low < base)?;
    high.checked_mul(base)?
        .checked_add(low)
        .filter(|value| *value <= most)
}
