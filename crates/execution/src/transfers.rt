//! Loads into a register and stores from one.
ghost use Rattle.std.specs.Prelude.{◌≡◌};
ghost use Rattle.state.specs.States.{register_at};
ghost use Rattle.execution.specs.Worlds.{outcome, world};
ghost use Rattle.execution.specs.Execution.{extended, loaded_into, offset_by, stored_from};

use crate::Raised;
use arithmetic::{add_signed, add_words, extend_byte};
use instruction::Register;
use memory::Memory;
use state::State;
use state::privileged::Progress;
use translation::address::{AddressSpace, Width};

/// The address that lies `n` bytes or `n` words from `x`.
fn offset_by(width: Width, x: u16, n: i8) -> u16
    ensures { result ≡ offset_by width x n }
{
    match width {
        Width::Byte => add_signed(x, n),
        Width::Word => add_words(x, n),
    }
}

/// What a register takes of a value that was loaded: a byte extends its sign.
fn extend_loaded(width: Width, loaded: u16) -> u16
    ensures { result ≡ extended width loaded }
{
    match width {
        Width::Byte => extend_byte((loaded % 256) as u8),
        Width::Word => loaded,
    }
}

// Inlined always, and so is a store: behind a call of either, what an instruction raises was written
// as two halves and read as one word, and a step that enters took 1.3 times as long.
/// LD and LDB.
#[inline(always)]
pub(crate) fn load<Mem: Memory>(
    state: &mut State,
    memory: &Mem,
    width: Width,
    d: Register,
    a: Register,
    n: i8,
) -> Result<Progress, Raised>
    ensures { outcome (world state.new (Mem.marks memory.now) (Mem.bytes memory.now)) result ≡ loaded_into d width (offset_by width (register_at a state.old.registers) n) (world state.old (Mem.marks memory.now) (Mem.bytes memory.now)) }
{
    let address = offset_by(width, state.register(a), n);
    // Made where it is used, here and in the step: a function would have to promise both its fields.
    let space = AddressSpace {
        user: state.system.is_user(),
        table: &state.tables.data,
    };
    // The same closure as for a store and a fetch: a function in its place would be no shorter.
    let loaded = access::load(space, memory, address, width).map_err(|event| Raised {
        event,
        detail: address,
    })?;
    state.set_register(d, extend_loaded(width, loaded));
    Ok(Progress::Ran)
}

/// ST and STB.
#[inline(always)]
pub(crate) fn store<Mem: Memory>(
    state: &State,
    memory: &mut Mem,
    width: Width,
    b: Register,
    a: Register,
    n: i8,
) -> Result<Progress, Raised>
    ensures outcome { outcome (world state.now (Mem.marks memory.new) (Mem.bytes memory.new)) result ≡ stored_from b width (offset_by width (register_at a state.now.registers) n) (world state.now (Mem.marks memory.old) (Mem.bytes memory.old)) }
    ensures rest { Mem.rest memory.new ≡ Mem.rest memory.old }
{
    let address = offset_by(width, state.register(a), n);
    let space = AddressSpace {
        user: state.system.is_user(),
        table: &state.tables.data,
    };
    access::store(space, memory, address, width, state.register(b)).map_err(|event| Raised {
        event,
        detail: address,
    })?;
    Ok(Progress::Ran)
}
