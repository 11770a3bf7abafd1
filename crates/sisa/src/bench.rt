//! What the monitor works on: a machine and a memory that it owns.
use loading::load::load;
use machine::machine::Machine;
use memory::Memory;
use memory::either::EitherMemory;
use memory::flat::FlatMemory;
use memory::split::SplitMemory;
use std::alloc::Global;

/// The size of the memory that a session begins with.
const WHOLE_MEMORY: usize = 65536;

/// The buffers that a memory lies over.
#[derive(Drop)]
pub enum Store {
    Flat { bytes: Vec<u8> },
    Split { fixed: Vec<u8>, plain: Vec<u8> },
}

impl Store {
    /// The memory over the buffers.
    pub fn memory(&mut self) -> EitherMemory<FlatMemory<'_>, SplitMemory<'_, '_>> {
        match self {
            Store::Flat { bytes } => EitherMemory::One(FlatMemory::over(bytes.as_mut_slice())),
            Store::Split { fixed, plain } => EitherMemory::Other(SplitMemory::over(
                fixed.as_slice(),
                plain.as_mut_slice(),
            )),
        }
    }
}

/// A machine over a memory.
#[derive(Drop)]
pub struct Bench {
    pub machine: Machine,
    pub store: Store,
}

impl Bench {
    /// A machine at its start over a flat memory of 65,536 bytes.
    pub fn new(heap: Global) -> anyhow::Result<Bench> {
        let bytes = vec![in heap; 0; WHOLE_MEMORY]?;
        Ok(Bench {
            machine: Machine::start(),
            store: Store::Flat { bytes },
        })
    }

    // No `?` in the three that follow: where a memory cannot be had, the session goes on.
    /// A flat memory of `size` zero bytes.
    pub fn flat(&mut self, rt: &HostRuntime, size: u32) -> anyhow::Result<()> {
        match vec![in rt.alloc(); 0; size as usize] {
            Ok(bytes) => self.start_over(rt, Store::Flat { bytes }),
            Err(_) => no_memory(rt),
        }
    }

    /// A split memory of `fixed` and `plain` zero bytes.
    pub fn split(&mut self, rt: &HostRuntime, fixed: u32, plain: u32) -> anyhow::Result<()> {
        match vec![in rt.alloc(); 0; fixed as usize] {
            Ok(area) => self.split_over(rt, area, plain),
            Err(_) => no_memory(rt),
        }
    }

    /// A split memory over a read-only area and `plain` zero bytes.
    pub fn split_over(
        &mut self,
        rt: &HostRuntime,
        fixed: Vec<u8>,
        plain: u32,
    ) -> anyhow::Result<()> {
        match vec![in rt.alloc(); 0; plain as usize] {
            Ok(plain) => self.start_over(rt, Store::Split { fixed, plain }),
            Err(_) => no_memory(rt),
        }
    }

    fn start_over(&mut self, rt: &HostRuntime, store: Store) -> anyhow::Result<()> {
        self.store = store;
        self.machine.reset();
        println!(rt; "done")?;
        Ok(())
    }

    /// Loads a file, and prints what came of it.
    pub fn load(&mut self, rt: &HostRuntime, file: &[u8]) -> anyhow::Result<()> {
        match load(&mut self.store.memory(), file) {
            Ok(loaded) => println!(rt; "{loaded}")?,
            Err(refusal) => println!(rt; "{refusal}")?,
        }
        Ok(())
    }

    /// Prints bytes from a physical address on, and `--` where there is none.
    pub fn print_bytes(
        &mut self,
        rt: &HostRuntime,
        address: u32,
        count: u32,
    ) -> anyhow::Result<()> {
        let memory = self.store.memory();
        for i in 0..count {
            if i > 0 {
                print!(rt; " ")?;
            }
            let at = u16::try_from(address.saturating_add(i)).ok();
            match at.and_then(|at| memory.read(at).ok()) {
                Some(byte) => print!(rt; "{byte:02X}")?,
                None => print!(rt; "--")?,
            }
        }
        println!(rt; "")?;
        Ok(())
    }
}

fn no_memory(rt: &HostRuntime) -> anyhow::Result<()> {
    println!(rt; "no memory")?;
    Ok(())
}
