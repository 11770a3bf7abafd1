//! One step: an interrupt first, then the fetch, what the word says, and its execution.
ghost use Rattle.std.specs.Prelude.{◌≡◌};
ghost use Rattle.execution.specs.Worlds.{outcome, world};
ghost use Rattle.machine.specs.Steps.{concluded, performed, step_of};
ghost use Rattle.instruction.specs.Decode.{decode_of};
ghost use Rattle.state.specs.Entries.{entered};

use access::fetch;
use answers::StepAnswer;
use execution::{Raised, execute};
use instruction::decode;
use memory::Memory;
use state::State;
use state::privileged::Progress;
use translation::address::AddressSpace;
use translation::event::Event;

/// How many bytes an instruction has.
const INSTRUCTION_SIZE: u16 = 2;

/// Enters the system for an event.
fn enter(state: &mut State, event: Event, detail: u16) -> StepAnswer
    ensures state { state.new ≡ entered event detail state.old }
    ensures answer { result ≡ StepAnswer.Entered event }
{
    state.enter(event, detail);
    StepAnswer::Entered(event)
}

/// Does what a word says, or raises the event that it is no instruction.
fn attempt<Mem: Memory>(state: &mut State, memory: &mut Mem, word: u16) -> Result<Progress, Raised>
    ensures outcome { concluded result (world state.new (Mem.marks memory.new) (Mem.bytes memory.new)) ≡ performed (decode_of word) (world state.old (Mem.marks memory.old) (Mem.bytes memory.old)) }
    ensures rest { Mem.rest memory.new ≡ Mem.rest memory.old }
{
    let instruction = decode(word).ok_or(Raised {
        event: Event::IllegalInstruction,
        detail: 0,
    })?;
    execute(state, memory, &instruction)
}

/// One step of a machine that is not halted.
pub(crate) fn advance<Mem: Memory>(state: &mut State, memory: &mut Mem) -> StepAnswer
    ensures outcome { outcome (world state.new (Mem.marks memory.new) (Mem.bytes memory.new)) result ≡ step_of (world state.old (Mem.marks memory.old) (Mem.bytes memory.old)) }
    ensures rest { Mem.rest memory.new ≡ Mem.rest memory.old }
{
    if state.is_interrupted() {
        return enter(state, Event::Interrupt, 0);
    }
    let address = state.pc;
    state.pc = address.wrapping_add(INSTRUCTION_SIZE);
    let space = AddressSpace {
        user: state.system.is_user(),
        table: &state.tables.instruction,
    };
    // By `match`: handed on by `?`, a fetch that fails took a fifth more instructions.
    let word = match fetch(space, memory, address) {
        Ok(word) => word,
        Err(event) => return enter(state, event, address),
    };
    match attempt(state, memory, word) {
        Ok(Progress::Ran) => StepAnswer::Ran,
        Ok(Progress::Halted) => StepAnswer::Halted,
        Err(raised) => enter(state, raised.event, raised.detail),
    }
}
