//! From an instruction to its word.
ghost use Rattle.std.specs.Prelude.{◌≡◌, ◌<◌};
ghost use Rattle.instruction.specs.Encode.{operation_bits, entry_bits, high, middle, privileged_word, word_of};

use crate::fields::unsigned;
use crate::{EntryField, Instruction, Privileged, Register, Table};
use arithmetic::Operation;

/// The word that says an instruction. A number that its field cannot hold loses its upper bits.
pub fn encode(instruction: Instruction) -> u16
    ensures { result ≡ word_of instruction }
{
    match instruction {
        Instruction::Operate { operation, d, a, b } => operation_bits(operation)
            + high(d)
            + middle(a)
            + b.number(),
        Instruction::Complement { d, a } => 0x0018 + high(d) + middle(a),
        Instruction::AddImmediate { d, a, n } => 0x2000 + high(d) + middle(a) + unsigned(n) % 32,
        Instruction::JumpIfZero { b, a } => 0x2020 + high(b) + middle(a),
        Instruction::JumpIfNotZero { b, a } => 0x2021 + high(b) + middle(a),
        Instruction::Jump { a } => 0x2023 + middle(a),
        Instruction::JumpAndLink { b, a } => 0x2024 + high(b) + middle(a),
        Instruction::CallSystem { a } => 0x2027 + middle(a),
        Instruction::LoadWord { d, a, n } => 0x3000 + high(d) + middle(a) + unsigned(n) % 64,
        Instruction::LoadByte { d, a, n } => 0xD000 + high(d) + middle(a) + unsigned(n) % 64,
        Instruction::StoreWord { b, a, n } => 0x4000 + high(b) + middle(a) + unsigned(n) % 64,
        Instruction::StoreByte { b, a, n } => 0xE000 + high(b) + middle(a) + unsigned(n) % 64,
        Instruction::MoveImmediate { d, n } => 0x5000 + high(d) + unsigned(n),
        Instruction::MoveHigh { d, n } => 0x5100 + high(d) + u16::from(n),
        Instruction::BranchIfZero { b, n } => 0x6000 + high(b) + unsigned(n),
        Instruction::BranchIfNotZero { b, n } => 0x6100 + high(b) + unsigned(n),
        Instruction::Input { d, port } => 0x7000 + high(d) + u16::from(port.number),
        Instruction::Output { b, port } => 0x7100 + high(b) + u16::from(port.number),
        Instruction::Privileged(privileged) => privileged_word(privileged),
    }
}

/// The word that says a privileged instruction.
fn privileged_word(privileged: Privileged) -> u16
    ensures { result ≡ privileged_word privileged }
{
    match privileged {
        Privileged::EnableInterrupts => 0xF020,
        Privileged::DisableInterrupts => 0xF021,
        Privileged::ReturnFromEvent => 0xF024,
        Privileged::GetInterrupt { d } => 0xF028 + high(d),
        Privileged::ReadSystem { d, s } => 0xF02C + high(d) + s.number() * 64,
        Privileged::WriteSystem { s, a } => 0xF030 + s.number() * 512 + middle(a),
        Privileged::WriteEntry { table, field, b, a } => entry_bits(table, field)
            + high(b)
            + middle(a),
        Privileged::Flush { a } => 0xF038 + middle(a),
        Privileged::Halt => 0xFFFF,
    }
}

/// A register in bits 11..9.
fn high(r: Register) -> u16
    ensures value { result ≡ high r }
    ensures bound { result < 0x1000 }
{
    r.number() * 512
}

/// A register in bits 8..6.
fn middle(r: Register) -> u16
    ensures value { result ≡ middle r }
    ensures bound { result < 0x200 }
{
    r.number() * 64
}

/// The word of an operation on R0, R0 and R0.
fn operation_bits(operation: Operation) -> u16
    ensures value { result ≡ operation_bits operation }
    ensures bound { result < 0x9000 }
{
    match operation {
        Operation::And => 0x0000,
        Operation::Or => 0x0008,
        Operation::Xor => 0x0010,
        Operation::Add => 0x0020,
        Operation::Subtract => 0x0028,
        Operation::ShiftArithmetic => 0x0030,
        Operation::ShiftLogical => 0x0038,
        Operation::Less => 0x1000,
        Operation::LessOrEqual => 0x1008,
        Operation::Equal => 0x1018,
        Operation::LessUnsigned => 0x1020,
        Operation::LessOrEqualUnsigned => 0x1028,
        Operation::Multiply => 0x8000,
        Operation::MultiplyHigh => 0x8008,
        Operation::MultiplyHighUnsigned => 0x8010,
    }
}

/// The word that writes R0 into a field of the entry that R0 names.
fn entry_bits(table: Table, field: EntryField) -> u16
    ensures value { result ≡ entry_bits table field }
    ensures bound { result < 0xF038 }
{
    match (table, field) {
        (Table::Instruction, EntryField::Physical) => 0xF034,
        (Table::Instruction, EntryField::Virtual) => 0xF035,
        (Table::Data, EntryField::Physical) => 0xF036,
        (Table::Data, EntryField::Virtual) => 0xF037,
    }
}
