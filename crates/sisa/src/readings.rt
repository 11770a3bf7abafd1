//! The machine's answers, as text.
use answers::{Halt, Refusal, RunAnswer, StepAnswer};
use machine::machine::Machine;
use std::fmt;
use translation::event::Event;

const REGISTERS: u32 = 8;

const LINES: u32 = 8;

const PORTS: u32 = 256;

// A trait of its own, since a word and the unit cannot have another `Display`.
/// What a call answers if it is not refused, as the monitor tells it.
pub trait Tell {
    fn tell<W: fmt::Write>(&self, f: &mut fmt::Formatter<W>) -> fmt::Result;
}

/// What a step came to.
impl Tell for StepAnswer {
    fn tell<W: fmt::Write>(&self, f: &mut fmt::Formatter<W>) -> fmt::Result {
        match self {
            StepAnswer::Ran => f.write_str("ran"),
            StepAnswer::Halted => Halt.tell(f),
            StepAnswer::Entered(event) => event.tell(f),
        }
    }
}

impl Tell for Halt {
    fn tell<W: fmt::Write>(&self, f: &mut fmt::Formatter<W>) -> fmt::Result {
        f.write_str("halted")
    }
}

impl Tell for Event {
    fn tell<W: fmt::Write>(&self, f: &mut fmt::Formatter<W>) -> fmt::Result {
        write!(f, "entered {}", self.code())
    }
}

/// How a run of either kind ended.
impl<Stop: Tell> Tell for RunAnswer<Stop> {
    fn tell<W: fmt::Write>(&self, f: &mut fmt::Formatter<W>) -> fmt::Result {
        write!(f, "steps {} ", self.steps)?;
        match &self.stop {
            Some(stop) => stop.tell(f),
            None => f.write_str("spent"),
        }
    }
}

/// That something was done.
impl Tell for () {
    fn tell<W: fmt::Write>(&self, f: &mut fmt::Formatter<W>) -> fmt::Result {
        f.write_str("done")
    }
}

/// A word that was read.
impl Tell for u16 {
    fn tell<W: fmt::Write>(&self, f: &mut fmt::Formatter<W>) -> fmt::Result {
        write!(f, "{self:04X}")
    }
}

/// The answer of a call: what it tells, or the number of the refusal.
#[derive(Drop)]
pub struct Told<T>(pub Result<T, Refusal>);

impl<T: Tell> fmt::Display for Told<T> {
    fn fmt<W: fmt::Write>(&self, f: &mut fmt::Formatter<W>) -> fmt::Result {
        match &self.0 {
            Ok(answer) => answer.tell(f),
            Err(refusal) => write!(f, "refused {}", refusal.number()),
        }
    }
}

/// All registers, the halted mark and the waiting lines on one line, the output words on the next.
pub fn print_state(rt: &HostRuntime, machine: &Machine) -> anyhow::Result<()> {
    print!(rt; "pc {:04X} r", machine.pc())?;
    for word in (0..REGISTERS).filter_map(|number| machine.register(number).ok()) {
        print!(rt; " {word:04X}")?;
    }
    print!(rt; " s")?;
    for word in (0..REGISTERS).filter_map(|number| machine.system_register(number).ok()) {
        print!(rt; " {word:04X}")?;
    }
    let halted = u8::from(machine.is_halted());
    println!(rt; " halted {halted} waiting {:02X}", waiting_lines(machine))?;
    print!(rt; "outputs")?;
    for port in 0..PORTS {
        match machine.output(port) {
            Ok(0) | Err(_) => {}
            Ok(word) => print!(rt; " {port}={word:04X}")?,
        }
    }
    println!(rt; "")?;
    Ok(())
}

/// Bit i is 1 if line i waits.
fn waiting_lines(machine: &Machine) -> u8 {
    (0..LINES)
        .filter(|line| machine.is_waiting(*line) == Ok(true))
        .fold(0, |lines, line| lines | 1u8 << line)
}
