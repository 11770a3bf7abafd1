//! Writing a word's text.
ghost use Rattle.std.specs.Prelude.{◌+◌, ◌%◌, ◌≡◌, ℕ, ◌*◌, ◌<◌, ◌≤◌, [], ◌∷◌, length, take};
ghost use Rattle.text.specs.Calls.{write_answer, written};
ghost use Rattle.text.specs.Lines.{grown};
ghost use Rattle.text.specs.Text.{decimal, signed_decimal, piece_text, pieces_text, operands_text, hex_digit, form_text, raw_text, text_of};

use crate::line::Line;
use crate::syntax::{Piece, pieces, syntax_of};
use crate::{LINE, TextRefusal};
use forms::{Form, form_of};

// A lent buffer and the length that is used of it: a rule of the project.
/// Writes the text of a word to the start of a buffer of at least 24 bytes, and answers its length.
#[tactic(auto, using(crate::proofs::Back::text_short))]
pub fn write_text(word: u16, buffer: &mut [u8]) -> Result<usize, TextRefusal>
    ensures answer { result ≡ write_answer word buffer.old }
    ensures buffer { buffer.new ≡ written word buffer.old }
    ensures bound { length (text_of word) ≤ 24 }
{
    if buffer.len() < LINE {
        return Err(TextRefusal::ShortBuffer);
    }
    let line = text_line(word);
    let text = line.text();
    buffer[0..text.len()].copy_from_slice(text);
    Ok(text.len())
}

/// The text of a word.
#[tactic(auto, using(crate::proofs::Back::whole))]
pub(crate) fn text_line(word: u16) -> Line
    ensures { result ≡ text_of word }
{
    match form_of(word) {
        Some(row) => form_line(word, row.form),
        None => raw_line(word),
    }
}

/// The text of a word of a form.
#[tactic(auto, using(crate::proofs::Growing::grown_join))]
fn form_line(word: u16, form: Form) -> Line
    ensures { result ≡ grown [] (form_text word form) }
{
    let mut line = Line::new();
    let syntax = syntax_of(form);
    line.push_all(syntax.name.spelling());
    push_operands(&mut line, word, pieces(syntax.value.operands));
    line
}

/// The text of a word of no form.
fn raw_line(word: u16) -> Line
    ensures { result ≡ grown [] (raw_text word) }
{
    let mut line = Line::new();
    line.push_all(b".word ");
    line.push_all(&[word / 4096, word / 256, word / 16, word].map(hex_digit));
    line
}

/// Operands stand behind a blank.
#[tactic(auto, using(crate::proofs::Growing::grown_join))]
fn push_operands(line: &mut Line, word: u16, operands: &[Piece])
    ensures { line.new ≡ grown line.old (operands_text word operands.now) }
{
    if !operands.is_empty() {
        line.push(b' ');
        push_pieces(line, word, operands);
    }
}

/// The pieces one after another.
#[tactic(auto, using(crate::proofs::Growing::grown_piece))]
fn push_pieces(line: &mut Line, word: u16, pieces: &[Piece])
    ensures { line.new ≡ grown line.old (pieces_text word pieces.now) }
{
    for piece in pieces {
        push_piece(line, word, *piece);
    }
}

fn push_piece(line: &mut Line, word: u16, piece: Piece)
    ensures { line.new ≡ grown line.old (piece_text word piece) }
{
    match piece {
        Piece::Comma => line.push_all(b", "),
        Piece::Open => line.push(b'('),
        Piece::Close => line.push(b')'),
        Piece::High => line.push_all(&[b'R', digit(word / 512 % 8)]),
        Piece::Middle => line.push_all(&[b'R', digit(word / 64 % 8)]),
        Piece::Low => line.push_all(&[b'R', digit(word % 8)]),
        Piece::SystemHigh => line.push_all(&[b'S', digit(word / 512 % 8)]),
        Piece::SystemMiddle => line.push_all(&[b'S', digit(word / 64 % 8)]),
        Piece::Signed5 => push_signed(line, 16, word % 32),
        Piece::Signed6 => push_signed(line, 32, word % 64),
        Piece::Signed8 => push_signed(line, 128, word % 256),
        Piece::Byte => push_decimal(line, word % 256),
    }
}

/// A field of `2 * half` values, as a signed number.
fn push_signed(line: &mut Line, half: u16, n: u16)
    requires low { half < 500 }
    requires field { n < 2 * half }
    ensures { line.new ≡ grown line.old (signed_decimal half n) }
{
    if n < half {
        push_decimal(line, n)
    } else {
        line.push(b'-');
        push_decimal(line, 2 * half - n)
    }
}

// By hand and not by `write!`, to which a text that is cut would be an error.
/// A number in decimal, without leading zeros.
#[tactic(auto, using(crate::proofs::Growing::grown_join))]
fn push_decimal(line: &mut Line, n: u16)
    requires { n < 1000 }
    ensures { line.new ≡ grown line.old (decimal n) }
{
    if n >= 100 {
        line.push(digit(n / 100));
    }
    if n >= 10 {
        line.push(digit(n / 10));
    }
    line.push(digit(n));
}

/// The last digit of a number.
fn digit(n: u16) -> u8
    ensures { result ≡ 48 + n % 10 }
{
    b'0' + (n % 10) as u8
}

/// The last hexadecimal digit of a number, in capitals.
fn hex_digit(n: u16) -> u8
    ensures { result ≡ hex_digit (n % 16) }
{
    // Not `char::from_digit`, which gives small letters.
    let n = n % 16;
    if n < 10 {
        b'0' + n as u8
    } else {
        b'7' + n as u8
    }
}
