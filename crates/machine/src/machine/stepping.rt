//! A step of a machine.
ghost use Rattle.std.specs.Prelude.{◌≡◌};
ghost use Rattle.execution.specs.Worlds.{outcome, world};
ghost use Rattle.machine.specs.Laws.{StepLaw};
ghost use Rattle.machine.specs.Steps.{step_call};

use crate::machine::Machine;
use crate::stepping::advance;
use answers::{Refusal, StepAnswer};
use memory::Memory;

impl Machine {
    /// Makes one step over a memory. A step that raises an event only enters it, and every step
    /// changes at most one R register and at most two bytes that the data table opens for writing.
    pub fn step<Mem: Memory>(&mut self, memory: &mut Mem) -> Result<StepAnswer, Refusal>
        ensures outcome { outcome (world self.new.state (Mem.marks memory.new) (Mem.bytes memory.new)) result ≡ step_call (world self.old.state (Mem.marks memory.old) (Mem.bytes memory.old)) }
        ensures law { StepLaw (world self.old.state (Mem.marks memory.old) (Mem.bytes memory.old)) (world self.new.state (Mem.marks memory.new) (Mem.bytes memory.new)) result }
        ensures rest { Mem.rest memory.new ≡ Mem.rest memory.old }
    {
        if self.state.halted {
            return Err(Refusal::Halted);
        }
        Ok(advance(&mut self.state, memory))
    }
}
