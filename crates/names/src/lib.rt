//! Short names, of mnemonics and of commands, in a form that a table can be searched by.
#![tactic(auto)]

ghost use Rattle.std.specs.Prelude.{◌≡◌, ◌≤◌, length, position, ◌==◌};
ghost use Rattle.std.specs.Str.{bytes_eq};
ghost use Rattle.names.specs.Names.{before, first_word, name_of, named};

use search::{Entry, first_match};

/// The most letters that a name can have.
pub const LONGEST: usize = 8;

// Eight letters and no slice: the key of an entry is an associated type, by a rule of the project,
// and one that borrows would need a parameter, which such a type cannot have.
/// A name of at most eight letters, filled up with blanks.
#[derive(Clone, Copy, PartialEq, Eq, Debug)]
pub struct Name {
    pub letters: [u8; 8],
}

impl Name {
    /// The name that is written as `word`, or nothing if that is longer than a name can be.
    pub fn of(word: &[u8]) -> Option<Name>
        ensures { result ≡ name_of word.now }
    {
        if word.len() > LONGEST {
            return None;
        }
        let mut letters = [b' '; LONGEST];
        letters[0..word.len()].copy_from_slice(word);
        Some(Name { letters })
    }

    /// The letters of a name, without the blanks that fill it up.
    pub fn spelling(&self) -> &[u8]
        ensures letters { result.now ≡ first_word self.now.letters }
        ensures bound { length result.now ≤ 8 }
    {
        first_word(&self.letters)
    }
}

/// A row of a table that is searched by name.
#[derive(Clone, Copy, PartialEq, Eq, Debug)]
pub struct Named<T> {
    pub name: Name,
    pub value: T,
}

impl<T: Copy> Entry for Named<T> {
    type Key = Name;

    ghost matched = { λ row name. bytes_eq row.name.letters name.letters };

    fn matches(&self, name: Name) -> bool {
        self.name == name
    }
}

/// What the first row of `word` has.
pub fn find_named<T: Copy>(rows: &[Named<T>], word: &[u8]) -> Option<T>
    ensures { result ≡ named rows.now word.now }
{
    let row = first_match(rows, Name::of(word)?)?;
    Some(row.value)
}

/// What stands before the first blank of a text: all of it, if it has none.
pub fn first_word(text: &[u8]) -> &[u8]
    ensures word { result.now ≡ first_word text.now }
    ensures bound { length result.now ≤ length text.now }
{
    before(text, b' ')
}

/// What stands before the first `mark` of a text: all of it, if it has none.
pub fn before(text: &[u8], mark: u8) -> &[u8]
    ensures part { result.now ≡ before mark text.now }
    ensures bound { length result.now ≤ length text.now }
{
    match place_of(text, mark) {
        Some(end) => &text[0..end],
        None => text,
    }
}

/// Where the first `mark` of a text stands.
fn place_of(text: &[u8], mark: u8) -> Option<usize>
    ensures { result ≡ position (λ byte. byte == mark) text.now }
{
    text.iter().position(|byte| *byte == mark)
}
