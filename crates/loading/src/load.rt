//! Loading a whole file into a memory.
ghost use Rattle.std.specs.Prelude.{◌≡◌, ◌+◌, true, false, length};
ghost use Rattle.loading.specs.Laws.{Accounted, Faithful};
ghost use Rattle.loading.specs.Loads.{turn, turn_of, final, load_from, load_of};

use crate::ticket::Ticket;
use faults::LoadFault;
use memory::Memory;
use records::reader::{Reader, Record};

/// What an accepted load has done: how many blocks it has written, and the sum of their lengths.
#[derive(Clone, Copy, PartialEq, Eq, Debug)]
pub struct Loaded {
    pub blocks: usize,
    pub sum: u16,
}

/// Why a load was refused, at which record, and how many blocks it had written by then.
#[derive(Clone, Copy, PartialEq, Eq, Debug)]
pub struct LoadRefusal {
    pub fault: LoadFault,
    pub offset: usize,
    pub blocks: usize,
}

/// Loads `file` into `memory`, block by block. If it is refused, the blocks before the record at
/// fault stay written.
pub fn load<Mem: Memory>(memory: &mut Mem, file: &[u8]) -> Result<Loaded, LoadRefusal>
    ensures answer { result ≡ (load_of (Mem.marks memory.old) (Mem.bytes memory.old) file.now).answer }
    ensures bytes { Mem.bytes memory.new ≡ (load_of (Mem.marks memory.old) (Mem.bytes memory.old) file.now).bytes }
    ensures marks { Mem.marks memory.new ≡ Mem.marks memory.old }
    ensures rest { Mem.rest memory.new ≡ Mem.rest memory.old }
    ensures accounted { Accounted (Mem.marks memory.old) (Mem.bytes memory.old) (Mem.bytes memory.new) file.now result }
    ensures faithful { Faithful (Mem.marks memory.old) (Mem.bytes memory.old) (Mem.bytes memory.new) file.now result }
{
    let mut reader = Reader::open(file).map_err(|fault| LoadRefusal {
        fault: LoadFault::from(fault),
        offset: 0,
        blocks: 0,
    })?;
    load_records(memory, &mut reader)
}

/// Loads the records of a file that is read from its start.
fn load_records<Mem: Memory>(memory: &mut Mem, reader: &mut Reader) -> Result<Loaded, LoadRefusal>
    requires { reader.old.position ≡ 0 }
    ensures outcome { final result (Mem.bytes memory.new) ≡ load_from (length reader.old.file.now + 1) (Mem.marks memory.old) (Mem.bytes memory.old) reader.old.file.now 0 0 0 }
    ensures marks { Mem.marks memory.new ≡ Mem.marks memory.old }
    ensures rest { Mem.rest memory.new ≡ Mem.rest memory.old }
{
    let mut ticket = Ticket::open();
    let mut blocks = 0;
    'records: loop {
        let offset = reader.position();
        let refused = |fault| LoadRefusal {
            fault,
            offset,
            blocks,
        };
        match take_record(memory, reader, &mut ticket) {
            Ok(None) => blocks += 1,
            Ok(Some(sum)) => {
                return ticket
                    .close(sum)
                    .map(|sum| Loaded { blocks, sum })
                    .map_err(|fault| refused(LoadFault::from(fault)));
            }
            Err(fault) => {
                ticket.abandon();
                return Err(refused(fault));
            }
        }
    }
}

/// Reads the next record: a block is put, and of the end record the sum is answered.
fn take_record<Mem: Memory>(
    memory: &mut Mem,
    reader: &mut Reader,
    ticket: &mut Ticket,
) -> Result<Option<u16>, LoadFault>
    requires { ticket.old.spent ≡ false }
    ensures turn { turn result ticket.new.sum (Mem.bytes memory.new) reader.new.position ≡ turn_of (Mem.marks memory.old) (Mem.bytes memory.old) reader.old.file.now reader.old.position ticket.old.sum }
    ensures spent { ticket.new.spent ≡ false }
    ensures file { reader.new.file.now ≡ reader.old.file.now }
    ensures marks { Mem.marks memory.new ≡ Mem.marks memory.old }
    ensures rest { Mem.rest memory.new ≡ Mem.rest memory.old }
{
    match reader.next_record()? {
        Record::Block { address, body } => {
            ticket.put_block(memory, address, body)?;
            Ok(None)
        }
        Record::End { sum } => Ok(Some(sum)),
    }
}
