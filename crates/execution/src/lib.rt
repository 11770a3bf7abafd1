//! What an instruction does to a machine and its memory, by a match over the instructions.
#![tactic(auto)]

mod transfers;

ghost use Rattle.std.specs.Prelude.{◌≡◌};
ghost use Rattle.execution.specs.Worlds.{outcome, world};
ghost use Rattle.execution.specs.Execution.{executed, raising};

use crate::transfers::{load, store};
use instruction::Instruction;
use memory::Memory;
use state::State;
use state::privileged::Progress;
use translation::address::Width;
use translation::event::Event;

/// An event that an instruction raises, with its detail.
#[derive(Clone, Copy, PartialEq, Eq, Debug)]
pub struct Raised {
    pub event: Event,
    pub detail: u16,
}

fn raise(event: Event, detail: u16) -> Result<Progress, Raised>
    ensures { result ≡ raising event detail }
{
    Err(Raised { event, detail })
}

// A match over the instructions, with a guard for the mode: a rule of the project. State and memory
// are lent apart, as they are to each call of a machine: a struct of both would be made in each.
/// Does what an instruction says. One that raises an event leaves state and memory alone.
pub fn execute<Mem: Memory>(
    state: &mut State,
    memory: &mut Mem,
    instruction: &Instruction,
) -> Result<Progress, Raised>
    ensures outcome { outcome (world state.new (Mem.marks memory.new) (Mem.bytes memory.new)) result ≡ executed instruction.now (world state.old (Mem.marks memory.old) (Mem.bytes memory.old)) }
    ensures rest { Mem.rest memory.new ≡ Mem.rest memory.old }
{
    match *instruction {
        Instruction::Operate { operation, d, a, b } => state.operate(operation, d, a, b),
        Instruction::Complement { d, a } => state.complement(d, a),
        Instruction::AddImmediate { d, a, n } => state.add_immediate(d, a, n),
        Instruction::MoveImmediate { d, n } => state.move_immediate(d, n),
        Instruction::MoveHigh { d, n } => state.move_high(d, n),
        Instruction::JumpIfZero { b, a } => state.jump_if(
            state.register(b) == 0,
            state.register(a),
        ),
        Instruction::JumpIfNotZero { b, a } => state.jump_if(
            state.register(b) != 0,
            state.register(a),
        ),
        Instruction::Jump { a } => state.jump_if(true, state.register(a)),
        Instruction::JumpAndLink { b, a } => state.jump_and_link(b, a),
        Instruction::BranchIfZero { b, n } => state.branch_if(state.register(b) == 0, n),
        Instruction::BranchIfNotZero { b, n } => state.branch_if(state.register(b) != 0, n),
        Instruction::Input { d, port } => state.input(d, port),
        Instruction::Output { b, port } => state.output(b, port),
        Instruction::CallSystem { a } => return raise(Event::SystemCall, state.register(a)),
        Instruction::LoadWord { d, a, n } => return load(state, memory, Width::Word, d, a, n),
        Instruction::LoadByte { d, a, n } => return load(state, memory, Width::Byte, d, a, n),
        Instruction::StoreWord { b, a, n } => return store(state, memory, Width::Word, b, a, n),
        Instruction::StoreByte { b, a, n } => return store(state, memory, Width::Byte, b, a, n),
        Instruction::Privileged(_) if state.system.is_user() => return raise(Event::Privileged, 0),
        Instruction::Privileged(ref privileged) => return Ok(state.control(privileged)),
    }
    Ok(Progress::Ran)
}
