//! The entry into the system.
ghost use Rattle.std.specs.Prelude.{◌≡◌};
ghost use Rattle.state.specs.Entries.{entered};

use crate::State;
use translation::event::Event;

/// The status word of system mode with interrupts off.
pub const SYSTEM_MODE: u16 = 1;

impl State {
    /// Enters the system for an event: S0 takes the status word, S1 takes PC, S2 the event's code and
    /// S3 its detail; then the machine is in system mode with interrupts off, at the address in S5.
    pub fn enter(&mut self, event: Event, detail: u16)
        ensures { self.new ≡ entered event detail self.old }
    {
        self.system.saved_status = self.system.status;
        self.system.return_address = self.pc;
        self.system.event = event.code();
        self.system.detail = detail;
        self.system.status = SYSTEM_MODE;
        self.pc = self.system.entry_address;
    }
}
