//! Two machines with one user program and different secrets, given the same calls.
use crate::bench::Bench;
use crate::readings::Told;
use calls::{Answer, Call};
use comparing::compare;
use comparing::exchange::{Comparison, Exchange, Side};
use machine::machine::Machine;
use memory::Memory;
use memory::flat::FlatMemory;
use memory::split::SplitMemory;
use monitor::commands::{Command, parse_command};
use monitor::lines::split_line;
use pairing::image::Image;
use pairing::scripts::call_of;
use std::alloc::{AllocError, Global};
use std::fmt;
use translation::event::Event;

/// The supervisor of both machines. It takes its secrets from 0x8400 (S4, S5, S6 and a table entry
/// of its own half), gives the user page 0 in frame 40 and page 1 in frame 41 and no other page,
/// and goes to the user's address 0x0010 with interrupts on and all R registers 0.
const SUPERVISOR: [u16; 37] = [
    0x5200, // MOVI R1, 0
    0x5384, // MOVIH R1, 0x84
    0x3440, // LD R2, 0(R1)
    0xF8B0, // WRS S4, R2
    0x3441, // LD R2, 1(R1)
    0xFAB0, // WRS S5, R2
    0x3442, // LD R2, 2(R1)
    0xFCB0, // WRS S6, R2
    0x3443, // LD R2, 3(R1)
    0x5628, // MOVI R3, 40
    0xF4F4, // WRPI R2, R3
    0xF4F6, // WRPD R2, R3
    0x54A8, // MOVI R2, -88
    0x5600, // MOVI R3, 0
    0xF4F4, // WRPI R2, R3
    0xF4F6, // WRPD R2, R3
    0x54A9, // MOVI R2, -87
    0x5601, // MOVI R3, 1
    0xF4F4, // WRPI R2, R3
    0xF4F6, // WRPD R2, R3
    0x5400, // MOVI R2, 0
    0x5602, // MOVI R3, 2
    0x5820, // MOVI R4, 32
    0xF4F5, // WRVI R2, R3
    0xF4F7, // WRVD R2, R3
    0x26C1, // ADDI R3, R3, 1
    0x1AC4, // CMPLT R5, R3, R4
    0x6BFB, // BNZ R5, the five words back
    0x5410, // MOVI R2, 16
    0xF2B0, // WRS S1, R2
    0x5402, // MOVI R2, 2
    0xF0B0, // WRS S0, R2
    0x5200, // MOVI R1, 0
    0x5400, // MOVI R2, 0
    0x5600, // MOVI R3, 0
    0x5800, // MOVI R4, 0
    0xF024, // RETI
];

/// How many bytes of the user's program the machines have.
const USER_SIZE: u16 = 2048;

const MEMORY_SIZE: usize = 65536;

/// How much of their memory is read-only: 33 frames, with the supervisor's program in them.
const FIXED_SIZE: u16 = 33 * 1024;

/// The number of the status register.
const STATUS: u32 = 7;

/// A supervisor makes fewer steps than this before the user runs.
const START_STEPS: u32 = 1000;

const OUR_SECRETS: [u16; 4] = [0x4711, 0x8100, 0xFC00, 0x00A8];

const THEIR_SECRETS: [u16; 4] = [0x0815, 0x9000, 0xF800, 0x00A1];

/// Sets up the two machines over a flat and a split memory, gives them the calls of a script, and
/// prints both sides' answers, the entry and what differs in the system's own half.
pub fn pair(rt: &HostRuntime, bench: &mut Bench, script: &[u8]) -> anyhow::Result<()> {
    let heap = rt.alloc();
    let Some(calls) = calls_of(heap, script)? else {
        println!(rt; "unknown command")?;
        return Ok(());
    };
    let user = user_bytes(heap, bench)?;
    let ours = Image {
        supervisor: &SUPERVISOR,
        secrets: &OUR_SECRETS,
        user: user.as_slice(),
    };
    let theirs = Image {
        secrets: &THEIR_SECRETS,
        ..ours
    };
    let mut our_bytes = vec![in heap; 0; MEMORY_SIZE]?;
    ours.fill(0, our_bytes.as_mut_slice());
    let mut their_fixed = vec![in heap; 0; FIXED_SIZE as usize]?;
    theirs.fill(0, their_fixed.as_mut_slice());
    let mut their_plain = vec![in heap; 0; MEMORY_SIZE - FIXED_SIZE as usize]?;
    theirs.fill(FIXED_SIZE, their_plain.as_mut_slice());
    let mut our_memory = FlatMemory::over(our_bytes.as_mut_slice());
    let mut their_memory = SplitMemory::over(their_fixed.as_slice(), their_plain.as_mut_slice());
    run_pair(rt, &mut our_memory, &mut their_memory, calls.as_slice())
}

/// The calls of a script, or nothing if a line of it is none.
fn calls_of(heap: Global, script: &[u8]) -> Result<Option<Vec<Call>>, AllocError> {
    let mut calls = Vec::new(heap);
    let mut rest = Some(script);
    // By `split_line`, whose contract says what a line is. The bound shows that the loop ends, as a
    // script has no more lines than one and its newlines.
    for _ in 0..=script.len() {
        let Some(text) = rest else {
            break;
        };
        let line = split_line(text);
        rest = line.rest;
        let command = parse_command(line.word);
        if command == Command::Nothing {
            continue;
        }
        let Some(call) = call_of(command) else {
            return Ok(None);
        };
        calls.push(call)?;
    }
    Ok(Some(calls))
}

/// The bytes of the monitor's user program.
fn user_bytes(heap: Global, bench: &mut Bench) -> Result<Vec<u8>, AllocError> {
    let memory = bench.store.memory();
    (0..USER_SIZE)
        .map(|address| memory.read(address).unwrap_or(0))
        .collect(heap)
}

/// A machine whose supervisor has just handed over to the user.
fn started<Mem: Memory>(memory: &mut Mem) -> Machine {
    let mut machine = Machine::start();
    for _ in 0..START_STEPS {
        match machine.system_register(STATUS) {
            Ok(status) if status % 2 == 1 => {
                let _ = machine.step(memory);
            }
            _ => break,
        }
    }
    machine
}

fn run_pair<Ours: Memory, Theirs: Memory>(
    rt: &HostRuntime,
    our_memory: &mut Ours,
    their_memory: &mut Theirs,
    calls: &[Call],
) -> anyhow::Result<()> {
    let mut ours = started(our_memory);
    let mut theirs = started(their_memory);
    let nothing = Exchange {
        ours: Answer::Done(Ok(())),
        theirs: Answer::Done(Ok(())),
    };
    let mut exchanges = vec![in rt.alloc(); nothing; calls.len()]?;
    let comparison = compare(
        &mut Side {
            machine: &mut ours,
            memory: our_memory,
        },
        &mut Side {
            machine: &mut theirs,
            memory: their_memory,
        },
        calls,
        exchanges.as_mut_slice(),
    );
    for (call, exchange) in calls.iter().zip(exchanges.iter()).take(comparison.calls) {
        let (ours, theirs) = (Given(exchange.ours), Given(exchange.theirs));
        println!(rt; "{}: {ours} | {theirs}", Asked(*call))?;
    }
    print_entry(rt, comparison)?;
    print_registers(rt, &ours, &theirs)?;
    print_memory(rt, our_memory, their_memory)
}

/// A call as a script has it.
#[derive(Clone, Copy, PartialEq, Eq, Debug)]
struct Asked(Call);

impl fmt::Display for Asked {
    fn fmt<W: fmt::Write>(&self, f: &mut fmt::Formatter<W>) -> fmt::Result {
        match self.0 {
            Call::Step => f.write_str("step"),
            Call::UserRun { steps } => write!(f, "user-run {steps}"),
            Call::Raise { line } => write!(f, "raise {line}"),
            Call::Drive { port, word } => write!(f, "drive {port} 0x{word:04X}"),
            Call::Register { number } => write!(f, "reg {number}"),
            Call::Output { port } => write!(f, "out {port}"),
        }
    }
}

/// The answer of a call.
#[derive(Clone, Copy, PartialEq, Eq, Debug)]
pub struct Given(pub Answer);

impl fmt::Display for Given {
    fn fmt<W: fmt::Write>(&self, f: &mut fmt::Formatter<W>) -> fmt::Result {
        match self.0 {
            Answer::Stepped(answer) => write!(f, "{}", Told(answer)),
            Answer::Ran(answer) => write!(f, "{}", Told(answer)),
            Answer::Done(answer) => write!(f, "{}", Told(answer)),
            Answer::Value(answer) => write!(f, "{}", Told(answer)),
        }
    }
}

/// The code of the event with which a machine entered the system, if it did.
#[derive(Clone, Copy, PartialEq, Eq, Debug)]
struct Entry(Option<Event>);

impl fmt::Display for Entry {
    fn fmt<W: fmt::Write>(&self, f: &mut fmt::Formatter<W>) -> fmt::Result {
        match self.0 {
            Some(event) => write!(f, "{}", event.code()),
            None => f.write_str("-"),
        }
    }
}

fn print_entry(rt: &HostRuntime, comparison: Comparison) -> anyhow::Result<()> {
    if comparison.has_entry() {
        let (ours, theirs) = (Entry(comparison.ours), Entry(comparison.theirs));
        println!(rt; "entered {ours} | {theirs}")?;
    } else {
        println!(rt; "not entered")?;
    }
    Ok(())
}

/// Prints PC and the system registers that differ.
fn print_registers(rt: &HostRuntime, ours: &Machine, theirs: &Machine) -> anyhow::Result<()> {
    if ours.pc() != theirs.pc() {
        println!(rt; "pc differs: {:04X} | {:04X}", ours.pc(), theirs.pc())?;
    }
    for number in 0..8 {
        if let (Ok(one), Ok(other)) = (
            ours.system_register(number),
            theirs.system_register(number),
        ) {
            if one != other {
                println!(rt; "s{number} differs: {one:04X} | {other:04X}")?;
            }
        }
    }
    Ok(())
}

/// Prints the bytes of the two memories that differ.
fn print_memory<Ours: Memory, Theirs: Memory>(
    rt: &HostRuntime,
    ours: &Ours,
    theirs: &Theirs,
) -> anyhow::Result<()> {
    for address in 0..=u16::MAX {
        let mine = ours.read(address).unwrap_or(0);
        let other = theirs.read(address).unwrap_or(0);
        if mine != other {
            println!(rt; "byte {address:04X} differs: {mine:02X} | {other:02X}")?;
        }
    }
    Ok(())
}
