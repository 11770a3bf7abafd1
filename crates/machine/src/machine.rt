//! A machine, whose type rules out the states that cannot be: status words of more than two bits, an
//! event of more than four, virtual fields of more than seven, and a halt in user mode.
mod lines;
mod ports;
mod readings;
mod running;
mod starting;
mod stepping;
mod user_running;

ghost use Rattle.std.specs.Prelude.{◌≡◌, true};
ghost use Rattle.machine.specs.Sound.{sound};

use state::State;

/// A machine.
#[derive(Drop)]
pub struct Machine {
    state: State,
    ghost sound: { sound state ≡ true },
}
