//! Loads many files, good and bad, and prints what each load answers.
#![tactic(auto)]

mod file;
mod show;

use file::Blocks;
use loading::load::load;
use loading::ticket::Ticket;
use memory::Memory;
use memory::flat::FlatMemory;
use memory::split::SplitMemory;
use show::{show, show_put};

// One function for each kind of memory: what they share is the last two lines.
/// Loads `file` into a flat memory of `size` zero bytes.
fn over_flat(rt: &HostRuntime, name: &str, size: usize, file: &[u8]) -> anyhow::Result<()> {
    let mut buffer = vec![in rt.alloc(); 0u8; size]?;
    let mut memory = FlatMemory::over(buffer.as_mut_slice());
    let answer = load(&mut memory, file);
    show(rt, name, answer)
}

/// Loads `file` into a split memory of `fixed` and `plain` zero bytes.
fn over_split(
    rt: &HostRuntime,
    name: &str,
    fixed: usize,
    plain: usize,
    file: &[u8],
) -> anyhow::Result<()> {
    let first = vec![in rt.alloc(); 0u8; fixed]?;
    let mut second = vec![in rt.alloc(); 0u8; plain]?;
    let mut memory = SplitMemory::over(first.as_slice(), second.as_mut_slice());
    let answer = load(&mut memory, file);
    show(rt, name, answer)
}

/// Two blocks and the end, as a whole and cut off after each number of bytes.
fn cut_files(rt: &HostRuntime) -> anyhow::Result<()> {
    let mut blocks = Blocks::new(rt.alloc());
    blocks.block(0, &[1, 2])?;
    blocks.block(1023, &[3])?;
    let file = blocks.end(3)?;
    for n in 0..=file.len() {
        over_flat(rt, "cut", 1024, &file[..n])?;
    }
    Ok(())
}

/// Records that cannot be read.
fn bad_records(rt: &HostRuntime) -> anyhow::Result<()> {
    over_flat(rt, "no mark", 1024, &[0x53, 0x34, 1])?;
    over_flat(rt, "no mark", 1024, &[0x52, 0x33, 2, 0, 0])?;
    over_flat(rt, "kind 0", 1024, &[0x53, 0x33, 0])?;
    over_flat(rt, "kind 3", 1024, &[0x53, 0x33, 3, 0, 0])?;
    over_flat(rt, "end only", 0, &[0x53, 0x33, 2, 0, 0])?;
    over_flat(rt, "wrong sum", 0, &[0x53, 0x33, 2, 1, 0])?;
    over_flat(rt, "byte after the end", 0, &[0x53, 0x33, 2, 1, 0, 0])
}

/// Bodies of the shortest and longest lengths, and one beyond each.
fn lengths(rt: &HostRuntime) -> anyhow::Result<()> {
    let body = [7u8; 1025];
    for n in [0usize, 1, 1024, 1025] {
        let mut blocks = Blocks::new(rt.alloc());
        blocks.block(0, &body[..n])?;
        let file = blocks.end(n as u16)?;
        over_flat(rt, "length", 2048, file.as_slice())?;
    }
    Ok(())
}

/// Blocks that lie in two frames, or past the last address.
fn places(rt: &HostRuntime) -> anyhow::Result<()> {
    for address in [1016u16, 1020, 2044, 3068, 65535] {
        let mut blocks = Blocks::new(rt.alloc());
        blocks.block(address, &[1, 2, 3, 4, 5, 6, 7, 8])?;
        let file = blocks.end(8)?;
        over_flat(rt, "flat", 2048, file.as_slice())?;
        over_flat(rt, "whole", 65536, file.as_slice())?;
        over_split(rt, "split", 1024, 2047, file.as_slice())?;
        over_split(rt, "split", 2047, 1024, file.as_slice())?;
    }
    Ok(())
}

/// The longest file, and one that is a byte longer.
fn longest(rt: &HostRuntime) -> anyhow::Result<()> {
    let body = [9u8; 1024];
    for last in [570usize, 571] {
        let mut blocks = Blocks::new(rt.alloc());
        for frame in 0..63u16 {
            blocks.block(frame * 1024, &body)?;
        }
        blocks.block(64512, &body[..last])?;
        let file = blocks.end(64512 + last as u16)?;
        println!(rt; "{} bytes", file.len())?;
        over_flat(rt, "longest", 65536, file.as_slice())?;
    }
    Ok(())
}

/// A ticket whose sum cannot grow any more.
fn full_ticket(rt: &HostRuntime) -> anyhow::Result<()> {
    let body = [5u8; 1024];
    let mut buffer = vec![in rt.alloc(); 0u8; 2048]?;
    let mut memory = FlatMemory::over(buffer.as_mut_slice());
    let mut ticket = Ticket::open();
    let mut sum = 0;
    for _ in 0..63 {
        let answer = ticket.put_block(&mut memory, 0, &body);
        sum = answer.unwrap_or(sum);
    }
    let over = ticket.put_block(&mut memory, 1024, &body);
    let full = ticket.put_block(&mut memory, 1024, &body[..1023]);
    let none = ticket.put_block(&mut memory, 1024, &body[..1]);
    let closed = ticket.close(65535);
    println!(rt; "sum {sum}, then")?;
    show_put(rt, over)?;
    show_put(rt, full)?;
    show_put(rt, none)?;
    println!(rt; "closed {}", closed.is_ok())?;
    println!(rt; "last byte {}", memory.read(2047).unwrap_or(1))?;
    Ok(())
}

/// The file of one word, over a memory that just holds it and over one that just does not.
fn one_word(rt: &HostRuntime) -> anyhow::Result<()> {
    let file = [
        0x53, 0x33, 1, 0, 0x80, 2, 0, 0xff, 0xff, 0x53, 0x33, 2, 2, 0,
    ];
    over_flat(rt, "33792", 33792, &file)?;
    over_flat(rt, "33791", 33791, &file)
}

fn main(rt: HostRuntime) -> anyhow::Result<()> {
    over_flat(&rt, "empty", 1024, &[])?;
    cut_files(&rt)?;
    bad_records(&rt)?;
    lengths(&rt)?;
    places(&rt)?;
    longest(&rt)?;
    full_ticket(&rt)?;
    one_word(&rt)
}
