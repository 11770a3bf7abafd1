//! Two machines over two memories that are given the same calls, with both sides' answers told
//! call by call.
#![tactic(auto)]

pub mod exchange;

ghost use Rattle.std.specs.Prelude.{◌≡◌};
ghost use Rattle.comparing.specs.Comparisons.{compare_of, compared};
ghost use Rattle.comparing.specs.Isolated.{Isolated};
ghost use Rattle.comparing.specs.Sides.{LendsSame, world_of};

use crate::exchange::{Comparison, Exchange, Side, give_both};
use calls::{Call, entry};
use memory::Memory;

/// Gives each call to both machines. It stops after the call in which one of them enters the
/// system, or when the calls or the slots for the answers are used up. Slot i takes both sides'
/// answers to call i, and the slots after the last call stay as found.
///
/// If both machines were in user mode and agreed on the user's share, then all that the isolation
/// law says holds of what they answered and of what they are after it.
// Lent slots for the answers and how many were used: it allocates nothing.
pub fn compare<Ours: Memory, Theirs: Memory>(
    ours: &mut Side<'_, Ours>,
    theirs: &mut Side<'_, Theirs>,
    calls: &[Call],
    exchanges: &mut [Exchange],
) -> Comparison
    ensures exact { compared (world_of Ours.Memory.marks Ours.Memory.bytes ours.new) (world_of Theirs.Memory.marks Theirs.Memory.bytes theirs.new) exchanges.new result ≡ compare_of calls.now exchanges.old (world_of Ours.Memory.marks Ours.Memory.bytes ours.old) (world_of Theirs.Memory.marks Theirs.Memory.bytes theirs.old) }
    ensures isolated { Isolated (world_of Ours.Memory.marks Ours.Memory.bytes ours.old) (world_of Theirs.Memory.marks Theirs.Memory.bytes theirs.old) (world_of Ours.Memory.marks Ours.Memory.bytes ours.new) (world_of Theirs.Memory.marks Theirs.Memory.bytes theirs.new) exchanges.new result }
    ensures our_rest { Ours.Memory.rest ours.new.memory.now ≡ Ours.Memory.rest ours.old.memory.now }
    ensures their_rest { Theirs.Memory.rest theirs.new.memory.now ≡ Theirs.Memory.rest theirs.old.memory.now }
    ensures our_side { LendsSame ours.old ours.new }
    ensures their_side { LendsSame theirs.old theirs.new }
{
    // Not zipped with the calls: after a `zip` no clause says what the slots hold.
    for (made, slot) in exchanges.iter_mut().enumerate() {
        let Some(call) = calls.get(made) else {
            break;
        };
        let exchange = give_both(ours, theirs, *call);
        *slot = exchange;
        let comparison = Comparison {
            calls: made + 1,
            ours: entry(exchange.ours),
            theirs: entry(exchange.theirs),
        };
        if comparison.has_entry() {
            return comparison;
        }
    }
    Comparison {
        calls: calls.len().min(exchanges.len()),
        ours: None,
        theirs: None,
    }
}
