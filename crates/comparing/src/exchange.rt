//! One call given to two machines.
ghost use Rattle.std.specs.Prelude.{◌≡◌, ◌||◌};
ghost use Rattle.execution.specs.Worlds.{outcome};
ghost use Rattle.comparing.specs.Sides.{LendsSame, world_of};
ghost use Rattle.calls.specs.Calls.{call_of, is_event};

use calls::{Answer, Call, make_call};
use machine::machine::Machine;
use memory::Memory;
use translation::event::Event;

/// Both sides' answers to a call.
#[derive(Clone, Copy, PartialEq, Eq, Debug)]
pub struct Exchange {
    pub ours: Answer,
    pub theirs: Answer,
}

/// How many calls were given to both machines, and the event with which each of them entered the
/// system in the last of these calls, if it did.
#[derive(Clone, Copy, PartialEq, Eq, Debug)]
pub struct Comparison {
    pub calls: usize,
    pub ours: Option<Event>,
    pub theirs: Option<Event>,
}

impl Comparison {
    /// Whether one of the machines entered the system.
    pub fn has_entry(self) -> bool
        ensures { result ≡ is_event self.ours || is_event self.theirs }
    {
        self.ours.is_some() || self.theirs.is_some()
    }
}

/// A machine and its memory, lent together.
#[derive(Drop)]
pub struct Side<'m, Mem> {
    pub machine: &'m mut Machine,
    pub memory: &'m mut Mem,
}

/// Gives a call to both machines.
pub(crate) fn give_both<Ours: Memory, Theirs: Memory>(
    ours: &mut Side<'_, Ours>,
    theirs: &mut Side<'_, Theirs>,
    call: Call,
) -> Exchange
    ensures ours { outcome (world_of Ours.Memory.marks Ours.Memory.bytes ours.new) result.ours ≡ call_of call (world_of Ours.Memory.marks Ours.Memory.bytes ours.old) }
    ensures our_rest { Ours.Memory.rest ours.new.memory.now ≡ Ours.Memory.rest ours.old.memory.now }
    ensures our_side { LendsSame ours.old ours.new }
    ensures theirs { outcome (world_of Theirs.Memory.marks Theirs.Memory.bytes theirs.new) result.theirs ≡ call_of call (world_of Theirs.Memory.marks Theirs.Memory.bytes theirs.old) }
    ensures their_rest { Theirs.Memory.rest theirs.new.memory.now ≡ Theirs.Memory.rest theirs.old.memory.now }
    ensures their_side { LendsSame theirs.old theirs.new }
{
    Exchange {
        ours: make_call(ours.machine, ours.memory, call),
        theirs: make_call(theirs.machine, theirs.memory, call),
    }
}
