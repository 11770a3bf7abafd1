//! From a word to its instruction.
ghost use Rattle.std.specs.Prelude.{◌≡◌};
ghost use Rattle.instruction.specs.Decode.{operate_of, write_entry_of, instruction_of, decode_of};
ghost use Rattle.instruction.specs.Encode.{SaidAgain};

use crate::fields::{register, signed, system_register};
use crate::{EntryField, Instruction, Port, Privileged, Table};
use arithmetic::Operation;
use forms::{Form, rows};
use search::first_match;

/// What a word says, or nothing if it has no form.
#[tactic(auto, using(crate::proofs::Again::said_again))]
pub fn decode(word: u16) -> Option<Instruction>
    ensures value { result ≡ decode_of word }
    ensures again { SaidAgain word result }
{
    // The search stands here and not behind a call, so that the compiler sees the table with it.
    first_match(rows(), word).map(|row| instruction(row.form, word))
}

/// What a word of a form says.
fn instruction(form: Form, word: u16) -> Instruction
    ensures { result ≡ instruction_of form word }
{
    let d = register(word / 512 % 8);
    let a = register(word / 64 % 8);
    let b = register(word / 512 % 8);
    let five = signed(word % 32, 16);
    let six = signed(word % 64, 32);
    let byte = (word % 256) as u8;
    let eight = byte.cast_signed();
    let port = Port { number: byte };
    // One match on the form: a part of it apart would need arms for the forms that cannot come there.
    match form {
        Form::And => operate(Operation::And, word),
        Form::Or => operate(Operation::Or, word),
        Form::Xor => operate(Operation::Xor, word),
        Form::Add => operate(Operation::Add, word),
        Form::Sub => operate(Operation::Subtract, word),
        Form::Sha => operate(Operation::ShiftArithmetic, word),
        Form::Shl => operate(Operation::ShiftLogical, word),
        Form::Cmplt => operate(Operation::Less, word),
        Form::Cmple => operate(Operation::LessOrEqual, word),
        Form::Cmpeq => operate(Operation::Equal, word),
        Form::Cmpltu => operate(Operation::LessUnsigned, word),
        Form::Cmpleu => operate(Operation::LessOrEqualUnsigned, word),
        Form::Mul => operate(Operation::Multiply, word),
        Form::Mulh => operate(Operation::MultiplyHigh, word),
        Form::Mulhu => operate(Operation::MultiplyHighUnsigned, word),
        Form::Not => Instruction::Complement { d, a },
        Form::Addi => Instruction::AddImmediate { d, a, n: five },
        Form::Jz => Instruction::JumpIfZero { b, a },
        Form::Jnz => Instruction::JumpIfNotZero { b, a },
        Form::Jmp => Instruction::Jump { a },
        Form::Jal => Instruction::JumpAndLink { b, a },
        Form::Calls => Instruction::CallSystem { a },
        Form::Ld => Instruction::LoadWord { d, a, n: six },
        Form::Ldb => Instruction::LoadByte { d, a, n: six },
        Form::St => Instruction::StoreWord { b, a, n: six },
        Form::Stb => Instruction::StoreByte { b, a, n: six },
        Form::Movi => Instruction::MoveImmediate { d, n: eight },
        Form::Movih => Instruction::MoveHigh { d, n: byte },
        Form::Bz => Instruction::BranchIfZero { b, n: eight },
        Form::Bnz => Instruction::BranchIfNotZero { b, n: eight },
        Form::In => Instruction::Input { d, port },
        Form::Out => Instruction::Output { b, port },
        Form::Ei => Instruction::Privileged(Privileged::EnableInterrupts),
        Form::Di => Instruction::Privileged(Privileged::DisableInterrupts),
        Form::Reti => Instruction::Privileged(Privileged::ReturnFromEvent),
        Form::Getiid => Instruction::Privileged(Privileged::GetInterrupt { d }),
        Form::Rds => Instruction::Privileged(Privileged::ReadSystem {
            d,
            s: system_register(word / 64 % 8),
        }),
        Form::Wrs => Instruction::Privileged(Privileged::WriteSystem {
            s: system_register(word / 512 % 8),
            a,
        }),
        Form::Wrpi => write_entry(Table::Instruction, EntryField::Physical, word),
        Form::Wrvi => write_entry(Table::Instruction, EntryField::Virtual, word),
        Form::Wrpd => write_entry(Table::Data, EntryField::Physical, word),
        Form::Wrvd => write_entry(Table::Data, EntryField::Virtual, word),
        Form::Flush => Instruction::Privileged(Privileged::Flush { a }),
        Form::Halt => Instruction::Privileged(Privileged::Halt),
    }
}

/// The operation on the three registers of a word.
fn operate(operation: Operation, word: u16) -> Instruction
    ensures { result ≡ operate_of operation word }
{
    Instruction::Operate {
        operation,
        d: register(word / 512 % 8),
        a: register(word / 64 % 8),
        b: register(word % 8),
    }
}

/// The write of a page table entry by the two registers of a word.
fn write_entry(table: Table, field: EntryField, word: u16) -> Instruction
    ensures { result ≡ write_entry_of table field word }
{
    Instruction::Privileged(Privileged::WriteEntry {
        table,
        field,
        b: register(word / 512 % 8),
        a: register(word / 64 % 8),
    })
}
