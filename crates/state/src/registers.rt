//! What instructions do to the R registers, PC and the ports.
ghost use Rattle.std.specs.Prelude.{◌≡◌};
ghost use Rattle.state.specs.States.{register_at, register_set};
ghost use Rattle.state.specs.Registers.{branched_if, byte_raised, complemented, input_taken, jumped_if, linked, moved_in, operated, output_given, sum_taken};

use crate::State;
use arithmetic::{Operation, add_signed, add_words, complement, extend, value, with_high_byte};
use instruction::{Port, Register};

impl State {
    /// The value of a register.
    pub fn register(&self, r: Register) -> u16
        ensures { result ≡ register_at r self.now.registers }
    {
        self.registers[r.number() as usize]
    }

    /// The register `d` takes `v`.
    pub fn set_register(&mut self, d: Register, v: u16)
        ensures { self.new ≡ register_set d v self.old }
    {
        self.registers[d.number() as usize] = v;
    }

    /// AND, ADD and the other operations on two registers.
    pub fn operate(&mut self, operation: Operation, d: Register, a: Register, b: Register)
        ensures { self.new ≡ operated operation d a b self.old }
    {
        let v = value(operation, self.register(a), self.register(b));
        self.set_register(d, v);
    }

    /// NOT.
    pub fn complement(&mut self, d: Register, a: Register)
        ensures { self.new ≡ complemented d a self.old }
    {
        let v = complement(self.register(a));
        self.set_register(d, v);
    }

    /// ADDI.
    pub fn add_immediate(&mut self, d: Register, a: Register, n: i8)
        ensures { self.new ≡ sum_taken d a n self.old }
    {
        let v = add_signed(self.register(a), n);
        self.set_register(d, v);
    }

    /// MOVI.
    pub fn move_immediate(&mut self, d: Register, n: i8)
        ensures { self.new ≡ moved_in d n self.old }
    {
        self.set_register(d, extend(n));
    }

    /// MOVIH.
    pub fn move_high(&mut self, d: Register, n: u8)
        ensures { self.new ≡ byte_raised d n self.old }
    {
        let v = with_high_byte(self.register(d), n);
        self.set_register(d, v);
    }

    /// PC takes `to` if `condition` holds.
    pub fn jump_if(&mut self, condition: bool, to: u16)
        ensures { self.new ≡ jumped_if condition to self.old }
    {
        if condition {
            self.pc = to;
        }
    }

    /// PC goes on by `n` words if `condition` holds.
    pub fn branch_if(&mut self, condition: bool, n: i8)
        ensures { self.new ≡ branched_if condition n self.old }
    {
        self.jump_if(condition, add_words(self.pc, n));
    }

    /// JAL: the target is read before the register of the return address is written.
    pub fn jump_and_link(&mut self, b: Register, a: Register)
        ensures { self.new ≡ linked b a self.old }
    {
        let target = self.register(a);
        self.set_register(b, self.pc);
        self.pc = target;
    }

    /// IN.
    pub fn input(&mut self, d: Register, port: Port)
        ensures { self.new ≡ input_taken d port self.old }
    {
        self.set_register(d, self.ports.inputs[port.number as usize]);
    }

    /// OUT.
    pub fn output(&mut self, b: Register, port: Port)
        ensures { self.new ≡ output_given b port self.old }
    {
        let word = self.register(b);
        self.ports.outputs[port.number as usize] = word;
    }
}
