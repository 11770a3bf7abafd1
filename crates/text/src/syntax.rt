//! How the forms are written: a mnemonic, and a list of operands.
ghost use Rattle.std.specs.Prelude.{◌≡◌, ◌≤◌, length};
ghost use Rattle.text.specs.Syntax.{pieces_of, syntax_rows, syntax_of, syntax_named};

use forms::Form;
use names::{Name, Named, find_named, first_word};

/// A piece of an operand list.
#[derive(Clone, Copy, PartialEq, Eq, Debug)]
pub enum Piece {
    Comma,
    Open,
    Close,
    /// The register in bits 11 to 9.
    High,
    /// The register in bits 8 to 6.
    Middle,
    /// The register in bits 2 to 0.
    Low,
    /// The system register in bits 11 to 9.
    SystemHigh,
    /// The system register in bits 8 to 6.
    SystemMiddle,
    /// The signed number in the lowest five bits.
    Signed5,
    /// The signed number in the lowest six bits.
    Signed6,
    /// The signed number in the lowest eight bits.
    Signed8,
    /// The number in the lowest eight bits.
    Byte,
}

/// The operand lists that there are.
#[derive(Clone, Copy, PartialEq, Eq, Debug)]
pub enum Operands {
    Nothing,
    HighRegister,
    MiddleRegister,
    TwoRegisters,
    ThreeRegisters,
    Immediate,
    Load,
    Store,
    Number,
    Byte,
    Output,
    ReadSystem,
    WriteSystem,
}

/// A form and its operands, which a mnemonic names.
#[derive(Clone, Copy, PartialEq, Eq, Debug)]
pub struct Syntax {
    pub operands: Operands,
    pub form: Form,
}

/// A row of the table of mnemonics.
macro_rules! row {
    ($mnemonic:literal, $operands:ident, $form:ident) => {
        Named {
            name: Name {
                letters: *$mnemonic,
            },
            value: Syntax {
                operands: Operands::$operands,
                form: Form::$form,
            },
        }
    };
}

// A constant table, as that of the forms: no heap holds a map.
const SYNTAX: [Named<Syntax>; 44] = [
    row!(b"AND     ", ThreeRegisters, And),
    row!(b"OR      ", ThreeRegisters, Or),
    row!(b"XOR     ", ThreeRegisters, Xor),
    row!(b"NOT     ", TwoRegisters, Not),
    row!(b"ADD     ", ThreeRegisters, Add),
    row!(b"SUB     ", ThreeRegisters, Sub),
    row!(b"SHA     ", ThreeRegisters, Sha),
    row!(b"SHL     ", ThreeRegisters, Shl),
    row!(b"CMPLT   ", ThreeRegisters, Cmplt),
    row!(b"CMPLE   ", ThreeRegisters, Cmple),
    row!(b"CMPEQ   ", ThreeRegisters, Cmpeq),
    row!(b"CMPLTU  ", ThreeRegisters, Cmpltu),
    row!(b"CMPLEU  ", ThreeRegisters, Cmpleu),
    row!(b"ADDI    ", Immediate, Addi),
    row!(b"JZ      ", TwoRegisters, Jz),
    row!(b"JNZ     ", TwoRegisters, Jnz),
    row!(b"JMP     ", MiddleRegister, Jmp),
    row!(b"JAL     ", TwoRegisters, Jal),
    row!(b"CALLS   ", MiddleRegister, Calls),
    row!(b"LD      ", Load, Ld),
    row!(b"LDB     ", Load, Ldb),
    row!(b"ST      ", Store, St),
    row!(b"STB     ", Store, Stb),
    row!(b"MOVI    ", Number, Movi),
    row!(b"MOVIH   ", Byte, Movih),
    row!(b"BZ      ", Number, Bz),
    row!(b"BNZ     ", Number, Bnz),
    row!(b"IN      ", Byte, In),
    row!(b"OUT     ", Output, Out),
    row!(b"MUL     ", ThreeRegisters, Mul),
    row!(b"MULH    ", ThreeRegisters, Mulh),
    row!(b"MULHU   ", ThreeRegisters, Mulhu),
    row!(b"EI      ", Nothing, Ei),
    row!(b"DI      ", Nothing, Di),
    row!(b"RETI    ", Nothing, Reti),
    row!(b"GETIID  ", HighRegister, Getiid),
    row!(b"RDS     ", ReadSystem, Rds),
    row!(b"WRS     ", WriteSystem, Wrs),
    row!(b"WRPI    ", TwoRegisters, Wrpi),
    row!(b"WRVI    ", TwoRegisters, Wrvi),
    row!(b"WRPD    ", TwoRegisters, Wrpd),
    row!(b"WRVD    ", TwoRegisters, Wrvd),
    row!(b"FLUSH   ", MiddleRegister, Flush),
    row!(b"HALT    ", Nothing, Halt),
];

/// How the forms are written, in the order of their table.
fn syntaxes() -> &'static [Named<Syntax>]
    ensures { result.now ≡ syntax_rows }
{
    &SYNTAX
}

/// How a form is written.
pub(crate) fn syntax_of(form: Form) -> Named<Syntax>
    ensures { result ≡ syntax_of form }
{
    let rows = syntaxes();
    rows[form.number()]
}

/// The syntax whose mnemonic a text begins with.
pub(crate) fn syntax_named(text: &[u8]) -> Option<Syntax>
    ensures { result ≡ syntax_named text.now }
{
    find_named(syntaxes(), first_word(text))
}

/// The pieces of an operand list.
pub(crate) fn pieces(operands: Operands) -> &'static [Piece]
    ensures pieces { result.now ≡ pieces_of operands }
    ensures bound { length result.now ≤ 6 }
{
    match operands {
        Operands::Nothing => &[],
        Operands::HighRegister => &[Piece::High],
        Operands::MiddleRegister => &[Piece::Middle],
        Operands::TwoRegisters => &[Piece::High, Piece::Comma, Piece::Middle],
        Operands::ThreeRegisters => &[
            Piece::High,
            Piece::Comma,
            Piece::Middle,
            Piece::Comma,
            Piece::Low,
        ],
        Operands::Immediate => &[
            Piece::High,
            Piece::Comma,
            Piece::Middle,
            Piece::Comma,
            Piece::Signed5,
        ],
        Operands::Load => &[
            Piece::High,
            Piece::Comma,
            Piece::Signed6,
            Piece::Open,
            Piece::Middle,
            Piece::Close,
        ],
        Operands::Store => &[
            Piece::Signed6,
            Piece::Open,
            Piece::Middle,
            Piece::Close,
            Piece::Comma,
            Piece::High,
        ],
        Operands::Number => &[Piece::High, Piece::Comma, Piece::Signed8],
        Operands::Byte => &[Piece::High, Piece::Comma, Piece::Byte],
        Operands::Output => &[Piece::Byte, Piece::Comma, Piece::High],
        Operands::ReadSystem => &[Piece::High, Piece::Comma, Piece::SystemMiddle],
        Operands::WriteSystem => &[Piece::SystemHigh, Piece::Comma, Piece::Middle],
    }
}
