//! What a user program can never find out, and what it can never touch.
#![tactic(auto)]

ghost use Rattle.isolation.specs.Law.{Isolation};

/// The isolation law, for every two machines over every two memories that agree on the user's
/// share, and every list of calls made of both. It has nothing to do: what it says is in its
/// contract.
pub fn isolation_law()
    ensures { Isolation }
{}
