#![tactic(auto)]

// Reads a chip file on standard input: one byte for the number of wires, then the records, four bytes each.
// Prints the chip's couplings, durations, distances, diameter and degrees, or the refusal.
// The same lines as in `chips`: the gate runs a program on one input, and no clause can say what is read or printed,
// so a function that the programs shared would promise nothing.
use chip_text::chip_report;
use std::io;
use std::io::Read;

fn main(rt: HostRuntime) -> io::Result<()> {
    let mut bytes = Vec::new(rt.alloc());
    let mut input = rt.stdin();
    input.read_to_end(&mut bytes)?;
    let text = chip_report(rt.alloc(), &bytes)?;
    print!(rt; "{text}")
}
