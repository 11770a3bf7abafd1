//! What an instruction word says, as a value, and the word that says it.
#![tactic(auto)]

mod decoding;
mod encoding;
mod fields;

use arithmetic::Operation;
pub use decoding::decode;
pub use encoding::encode;

/// A user register, R0 to R7.
#[derive(Clone, Copy, PartialEq, Eq, Debug)]
pub enum Register {
    R0,
    R1,
    R2,
    R3,
    R4,
    R5,
    R6,
    R7,
}

/// A system register, S0 to S7, by its role.
#[derive(Clone, Copy, PartialEq, Eq, Debug)]
pub enum SystemRegister {
    SavedStatus,
    ReturnAddress,
    Event,
    Detail,
    Scratch,
    EntryAddress,
    StackPointer,
    Status,
}

/// There is no register above 7.
#[derive(Clone, Copy, PartialEq, Eq, Debug)]
pub struct NoSuchRegister;

/// The number of an input or an output port.
#[derive(Clone, Copy, PartialEq, Eq, Debug)]
pub struct Port {
    pub number: u8,
}

/// One of the two page tables.
#[derive(Clone, Copy, PartialEq, Eq, Debug)]
pub enum Table {
    Instruction,
    Data,
}

/// One of the two fields of a page table entry.
#[derive(Clone, Copy, PartialEq, Eq, Debug)]
pub enum EntryField {
    Physical,
    Virtual,
}

/// An instruction, with its operands: `d` is written, `a` and `b` are read, `n` is a number.
#[derive(Clone, Copy, PartialEq, Eq, Debug)]
pub enum Instruction {
    Operate {
        operation: Operation,
        d: Register,
        a: Register,
        b: Register,
    },
    Complement {
        d: Register,
        a: Register,
    },
    AddImmediate {
        d: Register,
        a: Register,
        n: i8,
    },
    JumpIfZero {
        b: Register,
        a: Register,
    },
    JumpIfNotZero {
        b: Register,
        a: Register,
    },
    Jump {
        a: Register,
    },
    JumpAndLink {
        b: Register,
        a: Register,
    },
    CallSystem {
        a: Register,
    },
    LoadWord {
        d: Register,
        a: Register,
        n: i8,
    },
    LoadByte {
        d: Register,
        a: Register,
        n: i8,
    },
    StoreWord {
        b: Register,
        a: Register,
        n: i8,
    },
    StoreByte {
        b: Register,
        a: Register,
        n: i8,
    },
    MoveImmediate {
        d: Register,
        n: i8,
    },
    MoveHigh {
        d: Register,
        n: u8,
    },
    BranchIfZero {
        b: Register,
        n: i8,
    },
    BranchIfNotZero {
        b: Register,
        n: i8,
    },
    Input {
        d: Register,
        port: Port,
    },
    Output {
        b: Register,
        port: Port,
    },
    Privileged(Privileged),
}

/// An instruction of system mode alone.
#[derive(Clone, Copy, PartialEq, Eq, Debug)]
pub enum Privileged {
    EnableInterrupts,
    DisableInterrupts,
    ReturnFromEvent,
    GetInterrupt {
        d: Register,
    },
    ReadSystem {
        d: Register,
        s: SystemRegister,
    },
    WriteSystem {
        s: SystemRegister,
        a: Register,
    },
    WriteEntry {
        table: Table,
        field: EntryField,
        b: Register,
        a: Register,
    },
    Flush {
        a: Register,
    },
    Halt,
}
