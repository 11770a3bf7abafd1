//! The one way by which bytes get from a file into a memory: through a ticket, block by block,
//! each block whole or not at all.
#![tactic(auto)]

pub mod display;
pub mod load;
pub mod ticket;
