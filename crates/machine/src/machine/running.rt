//! Runs of many steps.
ghost use Rattle.std.specs.Prelude.{◌≡◌};
ghost use Rattle.execution.specs.Worlds.{outcome, world};
ghost use Rattle.machine.specs.Runs.{run_call};

use crate::machine::Machine;
use crate::running::run_within_limit;
use answers::{Halt, Refusal, RunAnswer};
use memory::Memory;

impl Machine {
    /// Makes `steps` steps over a memory, or fewer if one of them halts the machine. It goes on
    /// through entries into the system.
    pub fn run<Mem: Memory>(
        &mut self,
        memory: &mut Mem,
        steps: u32,
    ) -> Result<RunAnswer<Halt>, Refusal>
        ensures outcome { outcome (world self.new.state (Mem.marks memory.new) (Mem.bytes memory.new)) result ≡ run_call steps (world self.old.state (Mem.marks memory.old) (Mem.bytes memory.old)) }
        ensures rest { Mem.rest memory.new ≡ Mem.rest memory.old }
    {
        if self.state.halted {
            return Err(Refusal::Halted);
        }
        run_within_limit(&mut self.state, memory, steps)
    }
}
