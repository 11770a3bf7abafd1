//! The calls that a supervisor makes of a machine while a user program runs, as values that can
//! be listed, and their answers.
#![tactic(auto)]

ghost use Rattle.std.specs.Prelude.{◌≡◌};
ghost use Rattle.execution.specs.Worlds.{outcome, world};
ghost use Rattle.calls.specs.Calls.{call_of, entry_of};

use answers::{Refusal, RunAnswer, StepAnswer};
use machine::machine::Machine;
use memory::Memory;
use translation::event::Event;

/// A call of a machine.
#[derive(Clone, Copy, PartialEq, Eq, Debug)]
pub enum Call {
    /// One step.
    Step,
    /// A run of a user program.
    UserRun { steps: u32 },
    /// A line is marked as waiting.
    Raise { line: u32 },
    /// An input port gets a word.
    Drive { port: u32, word: u16 },
    /// A reading of an R register.
    Register { number: u32 },
    /// A reading of an output port.
    Output { port: u32 },
}

/// What a call answers.
#[derive(Clone, Copy, PartialEq, Eq, Debug)]
pub enum Answer {
    /// What a step came to.
    Stepped(Result<StepAnswer, Refusal>),
    /// How a run of a user program ended.
    Ran(Result<RunAnswer<Event>, Refusal>),
    /// A line was raised or a port driven.
    Done(Result<(), Refusal>),
    /// What was read.
    Value(Result<u16, Refusal>),
}

// A match over values: the calls of a list are compared and told, as closures could not be.
/// Makes one call of a machine over a memory.
pub fn make_call<Mem: Memory>(machine: &mut Machine, memory: &mut Mem, call: Call) -> Answer
    ensures outcome { outcome (world machine.new.state (Mem.marks memory.new) (Mem.bytes memory.new)) result ≡ call_of call (world machine.old.state (Mem.marks memory.old) (Mem.bytes memory.old)) }
    ensures rest { Mem.rest memory.new ≡ Mem.rest memory.old }
{
    match call {
        Call::Step => Answer::Stepped(machine.step(memory)),
        Call::UserRun { steps } => Answer::Ran(machine.user_run(memory, steps)),
        Call::Raise { line } => Answer::Done(machine.raise(line)),
        Call::Drive { port, word } => Answer::Done(machine.drive(port, word)),
        Call::Register { number } => Answer::Value(machine.register(number)),
        Call::Output { port } => Answer::Value(machine.output(port)),
    }
}

/// The event with which a call entered the system, if it did.
pub fn entry(answer: Answer) -> Option<Event>
    ensures { result ≡ entry_of answer }
{
    match answer {
        Answer::Stepped(Ok(step)) => step.entry(),
        Answer::Ran(Ok(run)) => run.stop,
        _ => None,
    }
}
