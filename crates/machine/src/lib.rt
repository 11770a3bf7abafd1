//! The machine: what a step of it does, and the calls that are made of it.
#![tactic(auto)]

pub mod cards;
pub mod machine;
mod running;
mod stepping;
