//! What the monitor makes of its input: lines, their words and numbers, and the command that a
//! line is.
#![tactic(auto)]

pub mod arguments;
pub mod commands;
pub mod lines;
pub mod numbers;
pub mod words;
