//! The records of a load file: a reader over the file's bytes that gives one record after the
//! other, or says by number why it cannot.
#![tactic(auto)]

pub mod fault;
mod kind;
pub mod reader;
