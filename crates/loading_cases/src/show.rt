//! What a load and a ticket answer, on a line.
use faults::PutFault;
use loading::load::{LoadRefusal, Loaded};

/// Prints the answer of a load.
pub(crate) fn show(
    rt: &HostRuntime,
    name: &str,
    answer: Result<Loaded, LoadRefusal>,
) -> anyhow::Result<()> {
    match answer {
        Ok(loaded) => println!(rt; "{name}: {loaded}")?,
        Err(refusal) => println!(rt; "{name}: {refusal}")?,
    }
    Ok(())
}

/// Prints the answer of a ticket to a block.
pub(crate) fn show_put(rt: &HostRuntime, answer: Result<u16, PutFault>) -> anyhow::Result<()> {
    match answer {
        Ok(sum) => println!(rt; "put {sum}")?,
        Err(fault @ PutFault::Place(place)) => {
            println!(rt; "refused {} {place}", fault.number())?
        }
        Err(fault) => println!(rt; "refused {}", fault.number())?,
    }
    Ok(())
}
