//! Compares texts: a table of samples, and all 65,536 words written and read back.
#![tactic(auto)]

use forms::form_of;
use text::{LINE, read_text, write_text};

/// A word and its text.
#[derive(Clone, Copy, PartialEq, Eq, Debug)]
struct Sample {
    word: u16,
    text: &'static [u8],
}

const SAMPLES: [Sample; 32] = [
    Sample {
        word: 0x02A3,
        text: b"ADD R1, R2, R3",
    },
    Sample {
        word: 0x0298,
        text: b"NOT R1, R2",
    },
    Sample {
        word: 0x0473,
        text: b"SHA R2, R1, R3",
    },
    Sample {
        word: 0x047B,
        text: b"SHL R2, R1, R3",
    },
    Sample {
        word: 0x12A3,
        text: b"CMPLTU R1, R2, R3",
    },
    Sample {
        word: 0x221F,
        text: b"ADDI R1, R0, -1",
    },
    Sample {
        word: 0x22A0,
        text: b"JZ R1, R2",
    },
    Sample {
        word: 0x22A1,
        text: b"JNZ R1, R2",
    },
    Sample {
        word: 0x20A3,
        text: b"JMP R2",
    },
    Sample {
        word: 0x22A4,
        text: b"JAL R1, R2",
    },
    Sample {
        word: 0x20E7,
        text: b"CALLS R3",
    },
    Sample {
        word: 0x32A0,
        text: b"LD R1, -32(R2)",
    },
    Sample {
        word: 0xD29F,
        text: b"LDB R1, 31(R2)",
    },
    Sample {
        word: 0x42A0,
        text: b"ST -32(R2), R1",
    },
    Sample {
        word: 0xE281,
        text: b"STB 1(R2), R1",
    },
    Sample {
        word: 0x5280,
        text: b"MOVI R1, -128",
    },
    Sample {
        word: 0x53FF,
        text: b"MOVIH R1, 255",
    },
    Sample {
        word: 0x6280,
        text: b"BZ R1, -128",
    },
    Sample {
        word: 0x637F,
        text: b"BNZ R1, 127",
    },
    Sample {
        word: 0x7212,
        text: b"IN R1, 18",
    },
    Sample {
        word: 0x7312,
        text: b"OUT 18, R1",
    },
    Sample {
        word: 0x8293,
        text: b"MULHU R1, R2, R3",
    },
    Sample {
        word: 0xF020,
        text: b"EI",
    },
    Sample {
        word: 0xF021,
        text: b"DI",
    },
    Sample {
        word: 0xF024,
        text: b"RETI",
    },
    Sample {
        word: 0xF228,
        text: b"GETIID R1",
    },
    Sample {
        word: 0xF2AC,
        text: b"RDS R1, S2",
    },
    Sample {
        word: 0xF2B0,
        text: b"WRS S1, R2",
    },
    Sample {
        word: 0xF2B4,
        text: b"WRPI R1, R2",
    },
    Sample {
        word: 0xF0B8,
        text: b"FLUSH R2",
    },
    Sample {
        word: 0xFFFF,
        text: b"HALT",
    },
    Sample {
        word: 0x0299,
        text: b".word 0299",
    },
];

/// Texts that no word has.
const REFUSED: [&[u8]; 14] = [
    b"",
    b"ADD",
    b"add R1, R2, R3",
    b"ADD R1,R2,R3",
    b"ADD  R1, R2, R3",
    b"ADD R1, R2, R3 ",
    b"ADD R1, R2, R3\n",
    b"ADD R1, R2, R8",
    b"ADDI R1, R0, +1",
    b"ADDI R1, R0, -0",
    b"ADDI R1, R0, 01",
    b"ADDI R1, R0, 16",
    b".word 02a3",
    b".word 02A3",
];

/// The text of a word, written into a buffer.
fn written(word: u16, buffer: &mut [u8; LINE]) -> Option<&[u8]> {
    let length = write_text(word, buffer).ok()?;
    buffer.get(..length)
}

/// Whether a word has this text, written and read.
fn is_text_of(word: u16, text: &[u8]) -> bool {
    written(word, &mut [b'?'; LINE]) == Some(text) && read_text(text) == Ok(word)
}

/// Whether the text of a word is read as that word.
fn reads_back(word: u16) -> bool {
    written(word, &mut [b'?'; LINE]).is_some_and(|text| read_text(text) == Ok(word))
}

fn main(rt: HostRuntime) -> anyhow::Result<()> {
    let right = SAMPLES
        .iter()
        .filter(|sample| is_text_of(sample.word, sample.text))
        .count();
    println!(rt; "samples written and read: {right}")?;
    let refused = REFUSED
        .iter()
        .filter(|text| read_text(text).is_err_and(|refusal| refusal.number() == 20))
        .count();
    println!(rt; "other texts refused: {refused}")?;
    let mut short = [b'?'; 23];
    match write_text(0, &mut short) {
        Ok(length) => println!(rt; "short buffer took {length}")?,
        Err(refusal) => println!(rt; "short buffer refused {}", refusal.number())?,
    }
    let back = (0..=u16::MAX).filter(|word| reads_back(*word)).count();
    let legal = (0..=u16::MAX)
        .filter(|word| form_of(*word).is_some())
        .count();
    println!(rt; "words read back: {back}, with a form: {legal}")?;
    Ok(())
}
