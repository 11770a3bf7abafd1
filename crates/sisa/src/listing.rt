//! Listing a load file, record by record.
use crate::session::print_text;
use faults::CloseFault;
use records::reader::{Reader, Record};

/// Prints what each record of a file says, up to the end or to the first bad record.
pub fn list(rt: &HostRuntime, file: &[u8]) -> anyhow::Result<()> {
    match Reader::open(file) {
        Ok(mut reader) => list_records(rt, &mut reader, file.len()),
        Err(fault) => refused(rt, fault.number(), 0),
    }
}

fn list_records(rt: &HostRuntime, reader: &mut Reader<'_>, length: usize) -> anyhow::Result<()> {
    let mut total: usize = 0;
    // The bound shows that the loop ends, as a file has fewer records than bytes: a `while` would
    // need a measure and its proof.
    for _ in 0..=length {
        let offset = reader.position();
        match reader.next_record() {
            Ok(Record::Block { address, body }) => {
                list_block(rt, address, body)?;
                total = total.wrapping_add(body.len());
            }
            Ok(Record::End { sum }) => {
                if total != usize::from(sum) {
                    return refused(rt, CloseFault.number(), offset);
                }
                println!(rt; "end {sum}")?;
                return Ok(());
            }
            Err(fault) => return refused(rt, fault.number(), offset),
        }
    }
    Ok(())
}

fn refused(rt: &HostRuntime, number: u8, offset: usize) -> anyhow::Result<()> {
    println!(rt; "refused {number} offset {offset}")?;
    Ok(())
}

/// Prints a block's place and each word of it.
fn list_block(rt: &HostRuntime, address: u16, body: &[u8]) -> anyhow::Result<()> {
    let length = body.len();
    println!(rt; "block {address:04X} {length}")?;
    let mut at = address;
    for pair in body.chunks(2) {
        match pair {
            [low, high] => {
                let word = u16::from_le_bytes([*low, *high]);
                print!(rt; "{at:04X} {word:04X} ")?;
                print_text(rt, word)?;
            }
            [byte] => println!(rt; "{at:04X} {byte:02X}")?,
            _ => {}
        }
        // By hand: the address wraps, and a range ends.
        at = at.wrapping_add(2);
    }
    Ok(())
}
