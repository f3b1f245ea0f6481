//! Reads a circuit's text, a line `steps` and steps, one a line, on standard input. Keeps the book of the circuit on a chip,
//! and prints the answer to each step, and what is counted. The first argument names the chip; without one it is the square.
//! The same lines as in `check_square`: the gate runs a program on one input, and no clause can say what is read or printed,
//! so a function that the programs shared would promise nothing.

#![tactic(auto)]

use anyhow::anyhow;
use check_text::reply;
use chip::ChipRecords;
use shipped::chip_named;
use std::env;
use std::io::Read;

// The chip that the first argument names.
fn chosen(rt: &HostRuntime) -> anyhow::Result<ChipRecords<'static>> {
    let mut args = env::args(rt)?;
    let name = match args.nth(1) {
        Some(name) => name,
        None => String::from_str(rt.alloc(), "square")?,
    };
    match chip_named(name.as_str()) {
        Some(chip) => Ok(chip),
        None => Err(anyhow!(format!(in rt.alloc(); "no chip is named {name}")?)),
    }
}

fn run(rt: &HostRuntime) -> anyhow::Result<()> {
    let chip = chosen(rt)?;
    let mut input = Vec::new(rt.alloc());
    rt.stdin().read_to_end(&mut input)?;
    let lines = reply(rt.alloc(), chip, &input)?;
    print!(rt; "{lines}")?;
    Ok(())
}

fn main(rt: HostRuntime) -> anyhow::Result<()> {
    run(&rt)
}
