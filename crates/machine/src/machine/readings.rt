//! Readings of the registers and of the halted mark.
ghost use Rattle.std.specs.Prelude.{◌≡◌};
ghost use Rattle.machine.specs.Calls.{register_reading, system_reading};

use crate::machine::Machine;
use answers::Refusal;
use instruction::SystemRegister;

impl Machine {
    // The same chain as for an output word and a line, of another array and with another refusal: a
    // function for the three would take all that differs.
    /// The value of R0 to R7, by its number.
    pub fn register(&self, number: u32) -> Result<u16, Refusal>
        ensures { result ≡ register_reading number self.now.state.registers }
    {
        self.state
            .registers
            .get(number as usize)
            .copied()
            .ok_or(Refusal::NoSuchRegister)
    }

    /// The value of S0 to S7, by its number.
    pub fn system_register(&self, number: u32) -> Result<u16, Refusal>
        ensures { result ≡ system_reading number self.now.state.system }
    {
        SystemRegister::try_from(number)
            .map(|s| self.state.system.read(s))
            .map_err(|_| Refusal::NoSuchRegister)
    }

    /// The address of the next instruction.
    pub fn pc(&self) -> u16
        ensures { result ≡ self.now.state.pc }
    {
        self.state.pc
    }

    /// Whether the machine is halted.
    pub fn is_halted(&self) -> bool
        ensures { result ≡ self.now.state.halted }
    {
        self.state.halted
    }
}
