//! What a comparison of two machines begins with: the calls of a script, and what lies in the
//! machines' memories.
#![tactic(auto)]

pub mod image;
pub mod scripts;
