//! One session: each line of the input is a command, and is answered before the next is read.
use crate::bench::Bench;
use crate::listing::list;
use crate::pair::{Given, pair};
use crate::readings::{Tell, Told, print_state};
use answers::Refusal;
use calls::make_call;
use machine::machine::Machine;
use memory::Memory;
use memory::either::EitherMemory;
use monitor::commands::{Command, parse_command};
use pairing::scripts::call_of;
use std::fs;
use std::io::{BufRead, Write};
use text::{LINE, read_text, write_text};

/// Answers every line of the input.
pub fn session<R: BufRead + Drop>(
    rt: &HostRuntime,
    bench: &mut Bench,
    mut input: R,
) -> anyhow::Result<()> {
    // One buffer for all lines: `split` would have one for each, which can be wanting at each.
    let mut line = Vec::new(rt.alloc());
    for _ in 0..u64::MAX {
        line.clear();
        if input.read_until(b'\n', &mut line)? == 0 {
            break;
        }
        if line.last() == Some(&b'\n') {
            let _ = line.pop();
        }
        answer(rt, bench, parse_command(line.as_slice()))?;
    }
    Ok(())
}

// A match, here and for the machine: a table of functions would hand out function pointers.
/// Answers one command.
fn answer(rt: &HostRuntime, bench: &mut Bench, command: Command<'_>) -> anyhow::Result<()> {
    match command {
        Command::Nothing => {}
        Command::Unknown => println!(rt; "unknown command")?,
        Command::Text { word } => print_text(rt, word)?,
        Command::Word { text } => match read_text(text) {
            Ok(word) => println!(rt; "{word:04X}")?,
            Err(refusal) => println!(rt; "refused {}", refusal.number())?,
        },
        Command::List { file } => {
            if let Some(bytes) = read_file(rt, file)? {
                list(rt, bytes.as_slice())?;
            }
        }
        Command::FlatMemory { size } => bench.flat(rt, size)?,
        Command::SplitMemory { fixed, plain } => bench.split(rt, fixed, plain)?,
        Command::SplitMemoryOver { file, plain } => {
            if let Some(bytes) = read_file(rt, file)? {
                bench.split_over(rt, bytes, plain)?;
            }
        }
        Command::Load { file } => {
            if let Some(bytes) = read_file(rt, file)? {
                bench.load(rt, bytes.as_slice())?;
            }
        }
        Command::Bytes { address, count } => bench.print_bytes(rt, address, count)?,
        Command::State => print_state(rt, &bench.machine)?,
        Command::Pair { file } => {
            if let Some(script) = read_file(rt, file)? {
                pair(rt, bench, script.as_slice())?;
            }
        }
        // Its kind is asked once a command here, and not at each access of a run.
        _ => match bench.store.memory() {
            EitherMemory::One(mut flat) => {
                answer_machine(rt, &mut bench.machine, &mut flat, command)?;
            }
            EitherMemory::Other(mut split) => {
                answer_machine(rt, &mut bench.machine, &mut split, command)?;
            }
        },
    }
    Ok(())
}

/// Answers one command to the machine and its memory: a call that a script may have too, or another.
fn answer_machine<Mem: Memory>(
    rt: &HostRuntime,
    machine: &mut Machine,
    memory: &mut Mem,
    command: Command<'_>,
) -> anyhow::Result<()> {
    if let Some(call) = call_of(command) {
        println!(rt; "{}", Given(make_call(machine, memory, call)))?;
        return Ok(());
    }
    match command {
        Command::Reset => {
            machine.reset();
            tell(rt, Ok(()))
        }
        Command::Run { steps } => tell(rt, machine.run(memory, steps)),
        Command::SystemRegister { number } => tell(rt, machine.system_register(number)),
        Command::Pc => tell(rt, Ok(machine.pc())),
        _ => Ok(()),
    }
}

/// Prints what a call answered.
fn tell<T: Tell + Drop>(rt: &HostRuntime, answer: Result<T, Refusal>) -> anyhow::Result<()> {
    println!(rt; "{}", Told(answer))?;
    Ok(())
}

/// The bytes of a file, or the answer that it cannot be read.
fn read_file(rt: &HostRuntime, name: &[u8]) -> anyhow::Result<Option<Vec<u8>>> {
    let path = std::str::from_utf8(name).ok();
    if let Some(bytes) = path.and_then(|path| fs::read(rt, path).ok()) {
        return Ok(Some(bytes));
    }
    let mut out = rt.stdout();
    out.write_all(b"cannot read ")?;
    out.write_all(name)?;
    out.write_all(b"\n")?;
    Ok(None)
}

/// The text of a word, on a line of its own.
pub fn print_text(rt: &HostRuntime, word: u16) -> anyhow::Result<()> {
    let mut buffer = [0; LINE];
    let length = write_text(word, &mut buffer).ok();
    if let Some(text) = length.and_then(|length| buffer.get(0..length)) {
        let mut out = rt.stdout();
        out.write_all(text)?;
        out.write_all(b"\n")?;
    }
    Ok(())
}
