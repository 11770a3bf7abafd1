//! The 44 forms of instruction words: one constant table, and the search for a word's form.
#![tactic(auto)]

ghost use Rattle.std.specs.Prelude.{◌≡◌, ◌<◌};
ghost use Rattle.forms.specs.Table.{form_rows, belongs, form_of, form_number, row_of, Disjoint, legal_words};

use search::{Entry, first_match};

/// A form by its mnemonic.
#[derive(Clone, Copy, PartialEq, Eq, Debug)]
pub enum Form {
    And,
    Or,
    Xor,
    Not,
    Add,
    Sub,
    Sha,
    Shl,
    Cmplt,
    Cmple,
    Cmpeq,
    Cmpltu,
    Cmpleu,
    Addi,
    Jz,
    Jnz,
    Jmp,
    Jal,
    Calls,
    Ld,
    Ldb,
    St,
    Stb,
    Movi,
    Movih,
    Bz,
    Bnz,
    In,
    Out,
    Mul,
    Mulh,
    Mulhu,
    Ei,
    Di,
    Reti,
    Getiid,
    Rds,
    Wrs,
    Wrpi,
    Wrvi,
    Wrpd,
    Wrvd,
    Flush,
    Halt,
}

/// A row of the table: a word belongs to it if its bits under `mask` are those of `value`.
#[derive(Clone, Copy, PartialEq, Eq, Debug)]
pub struct FormRow {
    pub mask: u16,
    pub value: u16,
    pub form: Form,
}

impl Entry for FormRow {
    type Key = u16;

    ghost matched = { λ row word. belongs word row };

    fn matches(&self, word: u16) -> bool {
        word & self.mask == self.value
    }
}

// A constant table of masks and values, by a rule of the project: no heap holds a map.
const FORMS: [FormRow; 44] = [
    FormRow {
        mask: 0b1111_000_000_111_000,
        value: 0b0000_000_000_000_000,
        form: Form::And,
    },
    FormRow {
        mask: 0b1111_000_000_111_000,
        value: 0b0000_000_000_001_000,
        form: Form::Or,
    },
    FormRow {
        mask: 0b1111_000_000_111_000,
        value: 0b0000_000_000_010_000,
        form: Form::Xor,
    },
    FormRow {
        mask: 0b1111_000_000_111111,
        value: 0b0000_000_000_011000,
        form: Form::Not,
    },
    FormRow {
        mask: 0b1111_000_000_111_000,
        value: 0b0000_000_000_100_000,
        form: Form::Add,
    },
    FormRow {
        mask: 0b1111_000_000_111_000,
        value: 0b0000_000_000_101_000,
        form: Form::Sub,
    },
    FormRow {
        mask: 0b1111_000_000_111_000,
        value: 0b0000_000_000_110_000,
        form: Form::Sha,
    },
    FormRow {
        mask: 0b1111_000_000_111_000,
        value: 0b0000_000_000_111_000,
        form: Form::Shl,
    },
    FormRow {
        mask: 0b1111_000_000_111_000,
        value: 0b0001_000_000_000_000,
        form: Form::Cmplt,
    },
    FormRow {
        mask: 0b1111_000_000_111_000,
        value: 0b0001_000_000_001_000,
        form: Form::Cmple,
    },
    FormRow {
        mask: 0b1111_000_000_111_000,
        value: 0b0001_000_000_011_000,
        form: Form::Cmpeq,
    },
    FormRow {
        mask: 0b1111_000_000_111_000,
        value: 0b0001_000_000_100_000,
        form: Form::Cmpltu,
    },
    FormRow {
        mask: 0b1111_000_000_111_000,
        value: 0b0001_000_000_101_000,
        form: Form::Cmpleu,
    },
    FormRow {
        mask: 0b1111_000_000_1_00000,
        value: 0b0010_000_000_0_00000,
        form: Form::Addi,
    },
    FormRow {
        mask: 0b1111_000_000_111111,
        value: 0b0010_000_000_100000,
        form: Form::Jz,
    },
    FormRow {
        mask: 0b1111_000_000_111111,
        value: 0b0010_000_000_100001,
        form: Form::Jnz,
    },
    FormRow {
        mask: 0b1111_111_000_111111,
        value: 0b0010_000_000_100011,
        form: Form::Jmp,
    },
    FormRow {
        mask: 0b1111_000_000_111111,
        value: 0b0010_000_000_100100,
        form: Form::Jal,
    },
    FormRow {
        mask: 0b1111_111_000_111111,
        value: 0b0010_000_000_100111,
        form: Form::Calls,
    },
    FormRow {
        mask: 0b1111_000_000_000000,
        value: 0b0011_000_000_000000,
        form: Form::Ld,
    },
    FormRow {
        mask: 0b1111_000_000_000000,
        value: 0b1101_000_000_000000,
        form: Form::Ldb,
    },
    FormRow {
        mask: 0b1111_000_000_000000,
        value: 0b0100_000_000_000000,
        form: Form::St,
    },
    FormRow {
        mask: 0b1111_000_000_000000,
        value: 0b1110_000_000_000000,
        form: Form::Stb,
    },
    FormRow {
        mask: 0b1111_000_1_00000000,
        value: 0b0101_000_0_00000000,
        form: Form::Movi,
    },
    FormRow {
        mask: 0b1111_000_1_00000000,
        value: 0b0101_000_1_00000000,
        form: Form::Movih,
    },
    FormRow {
        mask: 0b1111_000_1_00000000,
        value: 0b0110_000_0_00000000,
        form: Form::Bz,
    },
    FormRow {
        mask: 0b1111_000_1_00000000,
        value: 0b0110_000_1_00000000,
        form: Form::Bnz,
    },
    FormRow {
        mask: 0b1111_000_1_00000000,
        value: 0b0111_000_0_00000000,
        form: Form::In,
    },
    FormRow {
        mask: 0b1111_000_1_00000000,
        value: 0b0111_000_1_00000000,
        form: Form::Out,
    },
    FormRow {
        mask: 0b1111_000_000_111_000,
        value: 0b1000_000_000_000_000,
        form: Form::Mul,
    },
    FormRow {
        mask: 0b1111_000_000_111_000,
        value: 0b1000_000_000_001_000,
        form: Form::Mulh,
    },
    FormRow {
        mask: 0b1111_000_000_111_000,
        value: 0b1000_000_000_010_000,
        form: Form::Mulhu,
    },
    FormRow {
        mask: 0b1111_111111111111,
        value: 0b1111_000000100000,
        form: Form::Ei,
    },
    FormRow {
        mask: 0b1111_111111111111,
        value: 0b1111_000000100001,
        form: Form::Di,
    },
    FormRow {
        mask: 0b1111_111111111111,
        value: 0b1111_000000100100,
        form: Form::Reti,
    },
    FormRow {
        mask: 0b1111_000_111111111,
        value: 0b1111_000_000101000,
        form: Form::Getiid,
    },
    FormRow {
        mask: 0b1111_000_000_111111,
        value: 0b1111_000_000_101100,
        form: Form::Rds,
    },
    FormRow {
        mask: 0b1111_000_000_111111,
        value: 0b1111_000_000_110000,
        form: Form::Wrs,
    },
    FormRow {
        mask: 0b1111_000_000_111111,
        value: 0b1111_000_000_110100,
        form: Form::Wrpi,
    },
    FormRow {
        mask: 0b1111_000_000_111111,
        value: 0b1111_000_000_110101,
        form: Form::Wrvi,
    },
    FormRow {
        mask: 0b1111_000_000_111111,
        value: 0b1111_000_000_110110,
        form: Form::Wrpd,
    },
    FormRow {
        mask: 0b1111_000_000_111111,
        value: 0b1111_000_000_110111,
        form: Form::Wrvd,
    },
    FormRow {
        mask: 0b1111_111_000_111111,
        value: 0b1111_000_000_111000,
        form: Form::Flush,
    },
    FormRow {
        mask: 0b1111_111111111111,
        value: 0b1111_111111111111,
        form: Form::Halt,
    },
];

/// All forms. No word belongs to two of them, and 39,076 words have one.
pub fn rows() -> &'static [FormRow]
    ensures table { result.now ≡ form_rows }
    ensures disjoint { Disjoint result.now }
    ensures legal { legal_words result.now ≡ 39076 }
{
    &FORMS
}

/// The form of a word, if it has one.
pub fn form_of(word: u16) -> Option<FormRow>
    ensures { result ≡ form_of word }
{
    first_match(&FORMS, word)
}

impl Form {
    /// The place of a form in the table.
    pub fn number(self) -> usize
        ensures value { result ≡ form_number self }
        ensures bound { result < 44 }
    {
        self as usize
    }

    /// The row of a form.
    pub fn row(self) -> FormRow
        ensures { result ≡ row_of self }
    {
        FORMS[self.number()]
    }
}
