//! How the answer of a load is printed.
ghost use Rattle.std.specs.Prelude.{Some};
ghost use Rattle.loading.specs.Texts.{loaded_text, refusal_text};

use crate::load::{LoadRefusal, Loaded};
use faults::LoadFault;
use std::fmt;

impl fmt::Display for Loaded {
    ghost output = { λ loaded. Some (loaded_text loaded) };

    fn fmt<W: fmt::Write>(&self, f: &mut fmt::Formatter<W>) -> fmt::Result {
        write!(f, "loaded {} {}", self.blocks, self.sum)
    }
}

impl fmt::Display for LoadRefusal {
    ghost output = { λ refusal. Some (refusal_text refusal) };

    fn fmt<W: fmt::Write>(&self, f: &mut fmt::Formatter<W>) -> fmt::Result {
        let number = self.fault.number();
        write!(
            f,
            "refused {number} offset {} blocks {}",
            self.offset, self.blocks
        )?;
        match self.fault {
            LoadFault::Place(place) => write!(f, " {place}"),
            _ => Ok(()),
        }
    }
}
