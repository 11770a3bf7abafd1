//! Putting a block: where it may lie, and writing it whole.
ghost use Rattle.std.specs.Prelude.{◌≡◌, ◌+◌, ◌<◌, ◌≤◌, false, length};
ghost use Rattle.memory.specs.Meaning.{write_answer};
ghost use Rattle.loading.specs.Blocks.{placed, place_of, AllPlain, overlaid, put_of, sum_after, bytes_after};

use crate::ticket::Ticket;
use faults::{Misplaced, PlaceFault, PutFault};
use memory::{FRAME_SIZE, Memory};
use records::reader::LONGEST_BODY;

/// How many physical addresses there are.
const ADDRESSES: usize = 65536;

impl Ticket {
    /// Writes `body` from `address` on, whole or not at all, and answers the ticket's new sum.
    pub fn put_block<Mem: Memory>(
        &mut self,
        memory: &mut Mem,
        address: u16,
        body: &[u8],
    ) -> Result<u16, PutFault>
        requires { self.old.spent ≡ false }
        ensures answer { result ≡ put_of self.old.sum (Mem.marks memory.old) address body.now }
        ensures sum { self.new.sum ≡ sum_after self.old.sum result }
        ensures spent { self.new.spent ≡ false }
        ensures bytes { Mem.bytes memory.new ≡ bytes_after (Mem.bytes memory.old) address body.now result }
        ensures marks { Mem.marks memory.new ≡ Mem.marks memory.old }
        ensures rest { Mem.rest memory.new ≡ Mem.rest memory.old }
    {
        let count = body.len();
        if count == 0 || count > LONGEST_BODY {
            return Err(PutFault::BlockLength);
        }
        let sum = self
            .sum
            .checked_add(count as u16)
            .ok_or(PutFault::SumTooLarge)?;
        check_place(memory, address, count)?;
        write_body(memory, address, body);
        self.sum = sum;
        Ok(sum)
    }
}

/// Whether the frame of `address` is plain.
fn check_frame<Mem: Memory>(memory: &Mem, address: u16) -> Result<(), PlaceFault>
    ensures { result ≡ placed address (write_answer (Mem.marks memory.now) address) }
{
    memory.mark(address).writable().map_err(|fault| PlaceFault {
        fault: Misplaced::from(fault),
        address: u32::from(address),
    })
}

/// Whether `count` bytes fit from `address` on. So few lie in one frame or in two, and the first
/// byte of each frame decides.
#[tactic(auto, using(crate::proofs::Places::by_frames))]
fn check_place<Mem: Memory>(memory: &Mem, address: u16, count: usize) -> Result<(), PlaceFault>
    requires some { 0 < count }
    requires few { count ≤ 1024 }
    ensures { result ≡ place_of (Mem.marks memory.now) address count }
{
    let start = address as usize;
    let end = start + count;
    if end > ADDRESSES {
        return Err(PlaceFault {
            fault: Misplaced::Past,
            address: ADDRESSES as u32,
        });
    }
    check_frame(memory, address)?;
    let last_frame = (end - 1) / FRAME_SIZE * FRAME_SIZE;
    if last_frame > start {
        check_frame(memory, last_frame as u16)?;
    }
    Ok(())
}

/// Writes `body` from `address` on, where all frames are plain.
fn write_body<Mem: Memory>(memory: &mut Mem, address: u16, body: &[u8])
    requires room { address + length body.now ≤ 65536 }
    requires plain { AllPlain (Mem.marks memory.old) address (length body.now) }
    ensures bytes { Mem.bytes memory.new ≡ overlaid (Mem.bytes memory.old) address body.now }
    ensures marks { Mem.marks memory.new ≡ Mem.marks memory.old }
    ensures rest { Mem.rest memory.new ≡ Mem.rest memory.old }
{
    'bytes: for (i, byte) in body.iter().enumerate() {
        let _ = memory.write(address + i as u16, *byte);
    }
}
