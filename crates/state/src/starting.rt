//! The state at the start.
ghost use Rattle.std.specs.Prelude.{◌≡◌};
ghost use Rattle.state.specs.States.{start_state};

use crate::entry::SYSTEM_MODE;
use crate::{Ports, State, SystemRegisters, Tables};
use paging::PageTable;

/// Where the first instruction lies.
const START_ADDRESS: u16 = 0x8000;

impl State {
    /// The state at the start: all is zero, but the machine is in system mode, PC is 0x8000, and
    /// both tables map page i to frame i.
    pub fn start() -> State
        ensures { result ≡ start_state }
    {
        State {
            registers: [0; 8],
            pc: START_ADDRESS,
            system: SystemRegisters {
                saved_status: 0,
                return_address: 0,
                event: 0,
                detail: 0,
                scratch: 0,
                entry_address: 0,
                stack_pointer: 0,
                status: SYSTEM_MODE,
            },
            ports: Ports {
                inputs: [0; 256],
                outputs: [0; 256],
            },
            waiting: [false; 8],
            tables: Tables {
                instruction: PageTable::start(),
                data: PageTable::start(),
            },
            halted: false,
        }
    }
}
