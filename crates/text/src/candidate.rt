//! The only word whose text a text can be.
ghost use Rattle.std.specs.Prelude.{◌≡◌, ℕ, ◌<◌, ◌≤◌, length, drop, slice_index};
ghost use Rattle.text.specs.Candidate.{is_digit, number, number_width, signed, signed_width, field, width, fields, hex_at, candidate_of};

use crate::syntax::{Piece, pieces, syntax_named};
use names::first_word;

/// The word that a text has to be the text of, if it is one.
pub(crate) fn candidate(text: &[u8]) -> u16
    ensures { result ≡ candidate_of text.now }
{
    match syntax_named(text) {
        Some(syntax) => {
            let operands = behind(text, first_word(text).len() + 1);
            let fields = fields(pieces(syntax.operands), operands);
            syntax.form.row().value.wrapping_add(fields)
        }
        None => {
            hex_at(text, 6) * 4096 + hex_at(text, 7) * 256 + hex_at(text, 8) * 16 + hex_at(text, 9)
        }
    }
}

/// What a list of operands adds to the word.
fn fields(pieces: &[Piece], operands: &[u8]) -> u16
    requires { length pieces.now ≤ 6 }
    ensures value { result ≡ fields pieces.now operands.now }
    ensures bound { result < 32768 }
{
    let mut sum = 0;
    let mut rest = operands;
    for piece in pieces {
        sum += field(*piece, rest);
        rest = behind(rest, width(*piece, rest));
    }
    sum
}

/// What the piece at the start of a text adds to the word.
fn field(piece: Piece, text: &[u8]) -> u16
    ensures value { result ≡ field piece text.now }
    ensures bound { result < 4096 }
{
    match piece {
        Piece::Comma | Piece::Open | Piece::Close => 0,
        Piece::High | Piece::SystemHigh => (byte(text, 1) % 8) as u16 * 512,
        Piece::Middle | Piece::SystemMiddle => (byte(text, 1) % 8) as u16 * 64,
        Piece::Low => (byte(text, 1) % 8) as u16,
        Piece::Signed5 => signed(32, text),
        Piece::Signed6 => signed(64, text),
        Piece::Signed8 => signed(256, text),
        Piece::Byte => number(text) % 256,
    }
}

// Beside `field`, since how long a piece is and what it adds are two rules.
/// How many characters the piece at the start of a text has.
fn width(piece: Piece, text: &[u8]) -> usize
    ensures value { result ≡ width piece text.now }
    ensures bound { result ≤ 4 }
{
    match piece {
        Piece::Open | Piece::Close => 1,
        Piece::Comma
        | Piece::High
        | Piece::Middle
        | Piece::Low
        | Piece::SystemHigh
        | Piece::SystemMiddle => 2,
        Piece::Signed5 | Piece::Signed6 | Piece::Signed8 => signed_width(text),
        Piece::Byte => number_width(text),
    }
}

/// The number at the start of a text, with a sign before it, as a field of `values` values.
fn signed(values: u16, text: &[u8]) -> u16
    requires some { 0 < values }
    requires few { values ≤ 256 }
    ensures value { result ≡ signed values text.now }
    ensures bound { result < values }
{
    match text {
        [b'-', digits @ ..] => (values - number(digits) % values) % values,
        _ => number(text) % values,
    }
}

/// How many characters such a number has.
fn signed_width(text: &[u8]) -> usize
    ensures value { result ≡ signed_width text.now }
    ensures bound { result ≤ 4 }
{
    match text {
        [b'-', digits @ ..] => 1 + number_width(digits),
        _ => number_width(text),
    }
}

/// The number of one to three digits at the start of a text.
fn number(text: &[u8]) -> u16
    ensures value { result ≡ number text.now }
    ensures bound { result < 2000 }
{
    let [a, b, c] = [byte(text, 0), byte(text, 1), byte(text, 2)].map(|digit| (digit % 16) as u16);
    match number_width(text) {
        3 => a * 100 + b * 10 + c,
        2 => a * 10 + b,
        _ => a,
    }
}

/// How many digits such a number has.
fn number_width(text: &[u8]) -> usize
    ensures value { result ≡ number_width text.now }
    ensures bound { result ≤ 3 }
{
    match (
        byte(text, 1).is_ascii_digit(),
        byte(text, 2).is_ascii_digit(),
    ) {
        (true, true) => 3,
        (true, false) => 2,
        (false, _) => 1,
    }
}

/// The value of the hexadecimal digit at an index.
fn hex_at(text: &[u8], i: usize) -> u16
    ensures value { result ≡ hex_at text.now i }
    ensures bound { result < 16 }
{
    // Not `to_digit`: whether it is a digit is seen when the text of the word is compared.
    let c = byte(text, i) as u16;
    if c < 58 { c % 16 } else { (c + 9) % 16 }
}

/// The byte at an index, 0 past the end.
fn byte(text: &[u8], i: usize) -> u8
    ensures { result ≡ slice_index text.now i }
{
    text.get(i).copied().unwrap_or(0)
}

/// What stands behind the first bytes of a text, nothing past its end.
fn behind(text: &[u8], count: usize) -> &[u8]
    ensures { result.now ≡ drop count text.now }
{
    text.get(count..).unwrap_or_default()
}
