//! The words that come in and those that go out.
ghost use Rattle.std.specs.Prelude.{◌≡◌};
ghost use Rattle.machine.specs.Calls.{drive_answer, driven_at, output_reading};

use crate::machine::Machine;
use answers::Refusal;

impl Machine {
    /// Sets the word of an input port. It does not wake a halted machine.
    pub fn drive(&mut self, port: u32, word: u16) -> Result<(), Refusal>
        ensures answer { result ≡ drive_answer port }
        ensures state { self.new.state ≡ driven_at port word self.old.state }
    {
        // By index: once what `get_mut` lends is over, no clause says what the array holds.
        let port = port as usize;
        if port >= self.state.ports.inputs.len() {
            return Err(Refusal::NoSuchPort);
        }
        self.state.ports.inputs[port] = word;
        Ok(())
    }

    /// The word of an output port.
    pub fn output(&self, port: u32) -> Result<u16, Refusal>
        ensures { result ≡ output_reading port self.now.state.ports }
    {
        self.state
            .ports
            .outputs
            .get(port as usize)
            .copied()
            .ok_or(Refusal::NoSuchPort)
    }
}
