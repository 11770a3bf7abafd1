//! The monitor: reads commands, one a line, and writes the answer to each.
#![tactic(auto)]

mod bench;
mod listing;
mod pair;
mod readings;
mod session;

use bench::Bench;
use session::session;
use std::env;
use std::fs::File;
use std::io::BufReader;

fn main(rt: HostRuntime) -> anyhow::Result<()> {
    let mut bench = Bench::new(rt.alloc())?;
    let mut arguments = env::args(&rt)?;
    match arguments.nth(1) {
        None => session(&rt, &mut bench, BufReader::new(rt.alloc(), rt.stdin())?)?,
        Some(script) => match File::open(&rt, script.as_str()) {
            Ok(file) => session(&rt, &mut bench, BufReader::new(rt.alloc(), file)?)?,
            Err(_) => println!(rt; "cannot read {script}")?,
        },
    }
    Ok(())
}
