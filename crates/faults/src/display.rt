//! How the place of a refused block is printed.
ghost use Rattle.std.specs.Prelude.{Some};
ghost use Rattle.faults.specs.Texts.{misplaced_text, place_text};

use crate::{Misplaced, PlaceFault};
use memory::MemoryFault;
use std::fmt;

impl fmt::Display for Misplaced {
    ghost output = { λ fault. Some (misplaced_text fault) };

    fn fmt<W: fmt::Write>(&self, f: &mut fmt::Formatter<W>) -> fmt::Result {
        f.write_str(match self {
            Misplaced::Memory(MemoryFault::Fixed) => "fixed",
            Misplaced::Memory(MemoryFault::Absent) => "absent",
            Misplaced::Past => "past",
        })
    }
}

impl fmt::Display for PlaceFault {
    ghost output = { λ place. Some (place_text place) };

    fn fmt<W: fmt::Write>(&self, f: &mut fmt::Formatter<W>) -> fmt::Result {
        write!(f, "fault {} address {}", self.fault, self.address)
    }
}
