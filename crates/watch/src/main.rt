// watch: tells what the property file in the working folder holds, or why it is refused.
#![tactic(auto)]

mod lines;

use lines::file_line;
use std::fs;

fn main(rt: HostRuntime) -> anyhow::Result<()> {
    let heap = rt.alloc();
    let bytes = fs::read(&rt, "property.bin").unwrap_or(Vec::new(heap));
    let line = file_line(heap, &bytes)?;
    println!(rt; "{line}")?;
    Ok(())
}
