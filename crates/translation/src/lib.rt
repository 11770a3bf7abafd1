//! From a logical address to a physical one: the checks that a fetch and a data access meet, and the
//! events that stand for a failed one.
#![tactic(auto)]

pub mod address;
pub mod event;
