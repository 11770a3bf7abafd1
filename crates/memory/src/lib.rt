//! What a memory is to the machine: 64 frames of 1,024 bytes, each plain, fixed or absent.
//! Whoever supplies a memory implements `Memory` and proves its contracts; two memories over
//! lent buffers come with it.
#![tactic(auto)]

pub mod either;
pub mod flat;
pub mod lending;
pub mod split;

ghost use Rattle.std.specs.Prelude.{◌≡◌, ℕ, ◌≢◌, OnOk};
ghost use Rattle.memory.specs.declared.Mark.{Mark};
ghost use Rattle.memory.specs.declared.Mark.TheVariants.{Plain, Absent};
ghost use Rattle.memory.specs.Meaning.{Rest, mark_at, read_of, readable_by, write_answer, write_answer_by, written};

/// How many bytes a frame has.
pub const FRAME_SIZE: usize = 1024;

/// What a frame is: read and written, read only, or not there.
#[derive(Clone, Copy, PartialEq, Eq, Debug)]
pub enum Mark {
    Plain,
    Fixed,
    Absent,
}

/// Why a memory refuses an access.
#[derive(Clone, Copy, PartialEq, Eq, Debug)]
pub enum MemoryFault {
    Fixed,
    Absent,
}

impl Mark {
    /// Whether a frame of this mark can be read, or the fault of reading it.
    pub fn readable(self) -> Result<(), MemoryFault>
        ensures answer { result ≡ readable_by self }
        ensures there { OnOk result (self ≢ Absent) }
    {
        match self {
            Mark::Plain | Mark::Fixed => Ok(()),
            Mark::Absent => Err(MemoryFault::Absent),
        }
    }

    /// Whether a frame of this mark can be written, or the fault of writing it.
    pub fn writable(self) -> Result<(), MemoryFault>
        ensures answer { result ≡ write_answer_by self }
        ensures plain { OnOk result (self ≡ Plain) }
    {
        match self {
            Mark::Plain => Ok(()),
            Mark::Fixed => Err(MemoryFault::Fixed),
            Mark::Absent => Err(MemoryFault::Absent),
        }
    }
}

/// A memory, known by the mark of each frame and the byte at each physical address.
pub trait Memory {
    /// The mark of each frame, by the frame's number.
    ghost marks: { Self → ℕ → Mark };

    /// The byte at each physical address.
    ghost bytes: { Self → ℕ → ℕ };

    /// All that the memory holds besides, which no access touches.
    ghost rest: { Self → Rest };

    // That absent bytes count as zero is a clause and no `law`: a law would be owed for numbers and
    // lengths too that no value of the memory's type has, and ask more of who writes a memory.
    /// The mark of the frame that holds `address`. Where no frame is, `bytes` is 0.
    fn mark(&self, address: u16) -> Mark
        ensures answer { result ≡ mark_at (marks self.now) address }
        ensures blank { (k : ℕ) → mark_at (marks self.now) k ≡ Absent → bytes self.now k ≡ 0 };

    /// The byte at `address`, or the fault that its frame is absent.
    fn read(&self, address: u16) -> Result<u8, MemoryFault>
        ensures { result ≡ read_of (marks self.now) (bytes self.now) address };

    // That marks and rest stay is two clauses, here and wherever a memory is written: one word for
    // both would take the four members as its arguments.
    /// Writes `byte` at `address` if its frame is plain; else answers the frame's mark as the
    /// fault and changes nothing.
    fn write(&mut self, address: u16, byte: u8) -> Result<(), MemoryFault>
        ensures answer { result ≡ write_answer (marks self.old) address }
        ensures bytes { bytes self.new ≡ written (marks self.old) (bytes self.old) address byte }
        ensures marks { marks self.new ≡ marks self.old }
        ensures rest { rest self.new ≡ rest self.old };
}
