//! Reads a circuit's text on standard input and prints the report on it.

#![tactic(auto)]

use report::report;
use std::io::Read;

// One byte more than a text may have, so that a longer one is seen to be too long.
const TAKEN: u64 = 65537;

fn run(rt: &HostRuntime) -> anyhow::Result<()> {
    let mut text = Vec::new(rt.alloc());
    rt.stdin().take(TAKEN).read_to_end(&mut text)?;
    let shown = report(rt.alloc(), &text)?;
    print!(rt; "{shown}")?;
    Ok(())
}

fn main(rt: HostRuntime) -> anyhow::Result<()> {
    run(&rt)
}
