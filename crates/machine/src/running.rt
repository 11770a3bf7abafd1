//! Runs of many steps: one loop, whatever stops it.
ghost use Rattle.std.specs.Prelude.{◌≡◌, Option};
ghost use Rattle.answers.specs.declared.StepAnswer.{StepAnswer};
ghost use Rattle.answers.specs.Answers.{step_entry, step_halt};
ghost use Rattle.execution.specs.Worlds.{outcome, world};
ghost use Rattle.machine.specs.Runs.{run_of, within_limit};

use crate::stepping::advance;
use answers::{Halt, Refusal, RunAnswer, StepAnswer};
use memory::Memory;
use state::State;
use translation::event::Event;

/// The most steps that a run may be asked for.
const MOST_STEPS: u32 = 1_000_000;

/// What stops the runs of one kind.
pub(crate) trait Stop: Copy {
    ghost stop_of: { StepAnswer → Option Self };

    /// What of a step's answer stops the run.
    fn stop_of(answer: StepAnswer) -> Option<Self>
        ensures { result ≡ stop_of answer };
}

/// A run stops when the machine halts.
impl Stop for Halt {
    ghost stop_of = { step_halt };

    fn stop_of(answer: StepAnswer) -> Option<Halt> {
        answer.halt()
    }
}

/// A run of a user program stops when it enters the system.
impl Stop for Event {
    ghost stop_of = { step_entry };

    fn stop_of(answer: StepAnswer) -> Option<Event> {
        answer.entry()
    }
}

/// Makes `steps` steps, or fewer if one of them stops the run.
fn run_for<S: Stop, Mem: Memory>(state: &mut State, memory: &mut Mem, steps: u32) -> RunAnswer<S>
    ensures outcome { outcome (world state.new (Mem.marks memory.new) (Mem.bytes memory.new)) result ≡ run_of S.stop_of steps (world state.old (Mem.marks memory.old) (Mem.bytes memory.old)) }
    ensures rest { Mem.rest memory.new ≡ Mem.rest memory.old }
{
    for made in 0..steps {
        if let Some(stop) = S::stop_of(advance(state, memory)) {
            return RunAnswer {
                steps: made + 1,
                stop: Some(stop),
            };
        }
    }
    RunAnswer { steps, stop: None }
}

/// Makes the steps of a run, unless more are asked for than a run may make.
pub(crate) fn run_within_limit<S: Stop, Mem: Memory>(
    state: &mut State,
    memory: &mut Mem,
    steps: u32,
) -> Result<RunAnswer<S>, Refusal>
    ensures outcome { outcome (world state.new (Mem.marks memory.new) (Mem.bytes memory.new)) result ≡ within_limit S.stop_of steps (world state.old (Mem.marks memory.old) (Mem.bytes memory.old)) }
    ensures rest { Mem.rest memory.new ≡ Mem.rest memory.old }
{
    if steps > MOST_STEPS {
        return Err(Refusal::TooManySteps);
    }
    Ok(run_for(state, memory, steps))
}
