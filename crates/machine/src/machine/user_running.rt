//! Runs of a user program.
ghost use Rattle.std.specs.Prelude.{◌≡◌};
ghost use Rattle.execution.specs.Worlds.{outcome, world};
ghost use Rattle.machine.specs.Runs.{user_run_call};

use crate::machine::Machine;
use crate::running::run_within_limit;
use answers::{Refusal, RunAnswer};
use memory::Memory;
use translation::event::Event;

impl Machine {
    /// Makes `steps` steps of a user program over a memory, or fewer if one of them enters the
    /// system. A machine in system mode makes none.
    pub fn user_run<Mem: Memory>(
        &mut self,
        memory: &mut Mem,
        steps: u32,
    ) -> Result<RunAnswer<Event>, Refusal>
        ensures outcome { outcome (world self.new.state (Mem.marks memory.new) (Mem.bytes memory.new)) result ≡ user_run_call steps (world self.old.state (Mem.marks memory.old) (Mem.bytes memory.old)) }
        ensures rest { Mem.rest memory.new ≡ Mem.rest memory.old }
    {
        if self.state.halted {
            return Err(Refusal::Halted);
        }
        if !self.state.system.is_user() {
            return Err(Refusal::SystemMode);
        }
        run_within_limit(&mut self.state, memory, steps)
    }
}
