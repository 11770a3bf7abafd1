//! The monitor's commands: one table of their names, and what each takes behind its name.
ghost use Rattle.std.specs.Prelude.{◌≡◌};
ghost use Rattle.std.specs.Option.{option_map};
ghost use Rattle.monitor.specs.Words.{lent, split_of};
ghost use Rattle.monitor.specs.Commands.{command_rows, memory_of, area_of, said, taken_of, is_blank, passed_over, command_named, command_of};

use crate::arguments::{one_number, two_numbers};
use crate::numbers::parse_number;
use crate::words::split_word;
use names::{Name, Named, find_named};

/// The most bytes that `bytes` shows.
const MOST_SHOWN: u32 = 65536;

const MOST_WORD: u32 = 65535;

/// The word behind `memory` that asks for a flat memory.
const FLAT: &[u8] = b"flat";

/// The word behind `memory` that asks for a split memory.
const SPLIT: &[u8] = b"split";

/// A command's name stands for one of these.
// An enum and not a function in each row: such a table would hand out function pointers.
#[derive(Clone, Copy, PartialEq, Eq, Debug)]
pub enum Verb {
    Text,
    Word,
    List,
    Memory,
    Load,
    Bytes,
    Reset,
    Step,
    Run,
    UserRun,
    Raise,
    Drive,
    Reg,
    Sys,
    Pc,
    Out,
    State,
    Pair,
}

/// The rows of a table: names, filled up with blanks, and what they stand for.
macro_rules! rows {
    ($($letters:literal => $verb:ident,)+) => {
        [$(Named {
            name: Name { letters: *$letters },
            value: Verb::$verb,
        }),+]
    };
}

// A constant table: no heap holds a map.
const COMMANDS: [Named<Verb>; 18] = rows![
    b"text    " => Text,
    b"word    " => Word,
    b"list    " => List,
    b"memory  " => Memory,
    b"load    " => Load,
    b"bytes   " => Bytes,
    b"reset   " => Reset,
    b"step    " => Step,
    b"run     " => Run,
    b"user-run" => UserRun,
    b"raise   " => Raise,
    b"drive   " => Drive,
    b"reg     " => Reg,
    b"sys     " => Sys,
    b"pc      " => Pc,
    b"out     " => Out,
    b"state   " => State,
    b"pair    " => Pair,
];

/// What a line asks for. File names and texts are parts of the line itself.
// `Nothing` and `Unknown` stand among the commands: what answers a line meets them in the same `match`.
#[derive(Clone, Copy, PartialEq, Eq, Debug)]
pub enum Command<'a> {
    /// A blank line or a comment.
    Nothing,
    Unknown,
    Text { word: u16 },
    Word { text: &'a [u8] },
    List { file: &'a [u8] },
    FlatMemory { size: u32 },
    SplitMemory { fixed: u32, plain: u32 },
    SplitMemoryOver { file: &'a [u8], plain: u32 },
    Load { file: &'a [u8] },
    Bytes { address: u32, count: u32 },
    Reset,
    Step,
    Run { steps: u32 },
    UserRun { steps: u32 },
    Raise { line: u32 },
    Drive { port: u32, word: u16 },
    Register { number: u32 },
    SystemRegister { number: u32 },
    Pc,
    Output { port: u32 },
    State,
    Pair { file: &'a [u8] },
}

/// The command that a line is.
pub fn parse_command<'a>(line: &'a [u8]) -> Command<'a>
    ensures { said result ≡ command_of line.now }
{
    if is_passed_over(line) {
        return Command::Nothing;
    }
    command_named(line).unwrap_or(Command::Unknown)
}

/// The command that the first word of a line stands for, if what it takes stands behind it.
fn command_named<'a>(line: &'a [u8]) -> Option<Command<'a>>
    ensures { option_map said result ≡ command_named (split_of line.now) }
{
    let words = split_word(line);
    let verb = find_named(command_rows(), words.word)?;
    taken(verb, words.rest)
}

/// Whether a line is blank or a comment.
fn is_passed_over(line: &[u8]) -> bool
    ensures { result ≡ passed_over line.now }
{
    is_blank(line) || line.first() == Some(&b'#')
}

/// Whether a line has nothing but blanks.
fn is_blank(line: &[u8]) -> bool
    ensures { result ≡ is_blank line.now }
{
    line.iter().all(|byte| *byte == b' ')
}

/// The table of commands.
fn command_rows() -> &'static [Named<Verb>]
    ensures { result.now ≡ command_rows }
{
    &COMMANDS
}

/// The command with what stands behind its name, if that is what it takes.
fn taken<'a>(verb: Verb, rest: Option<&'a [u8]>) -> Option<Command<'a>>
    ensures { option_map said result ≡ taken_of verb (lent rest.entry) }
{
    match verb {
        Verb::Text => one_number(rest, MOST_WORD).map(|word| Command::Text { word: word as u16 }),
        Verb::Word => rest.map(|text| Command::Word { text }),
        Verb::List => rest.map(|file| Command::List { file }),
        Verb::Load => rest.map(|file| Command::Load { file }),
        Verb::Pair => rest.map(|file| Command::Pair { file }),
        Verb::Memory => memory(rest?),
        Verb::Bytes => {
            let (address, count) = two_numbers(rest, u32::MAX, MOST_SHOWN)?;
            Some(Command::Bytes { address, count })
        }
        Verb::Run => one_number(rest, u32::MAX).map(|steps| Command::Run { steps }),
        Verb::UserRun => one_number(rest, u32::MAX).map(|steps| Command::UserRun { steps }),
        Verb::Raise => one_number(rest, u32::MAX).map(|line| Command::Raise { line }),
        Verb::Drive => {
            let (port, word) = two_numbers(rest, u32::MAX, MOST_WORD)?;
            let word = word as u16;
            Some(Command::Drive { port, word })
        }
        Verb::Reg => one_number(rest, u32::MAX).map(|number| Command::Register { number }),
        Verb::Sys => one_number(rest, u32::MAX).map(|number| Command::SystemRegister { number }),
        Verb::Out => one_number(rest, u32::MAX).map(|port| Command::Output { port }),
        Verb::Reset => rest.is_none().then_some(Command::Reset),
        Verb::Step => rest.is_none().then_some(Command::Step),
        Verb::Pc => rest.is_none().then_some(Command::Pc),
        Verb::State => rest.is_none().then_some(Command::State),
    }
}

/// The memory that `flat N`, `split R W` or `split FILE W` asks for.
fn memory<'a>(line: &'a [u8]) -> Option<Command<'a>>
    ensures { option_map said result ≡ memory_of line.now }
{
    let words = split_word(line);
    if words.word == FLAT {
        one_number(words.rest, u32::MAX).map(|size| Command::FlatMemory { size })
    } else if words.word == SPLIT {
        split_memory(words.rest?)
    } else {
        None
    }
}

/// A split memory over areas of these sizes, or over a file and an area of this size.
fn split_memory<'a>(line: &'a [u8]) -> Option<Command<'a>>
    ensures { option_map said result ≡ area_of line.now }
{
    let words = split_word(line);
    let file = words.word;
    let plain = one_number(words.rest, u32::MAX)?;
    Some(match parse_number(file, u32::MAX) {
        Some(fixed) => Command::SplitMemory { fixed, plain },
        None => Command::SplitMemoryOver { file, plain },
    })
}
