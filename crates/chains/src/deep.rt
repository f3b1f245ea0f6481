// How deep a circuit is.
ghost use Rattle.std.specs.Prelude.{◌≡◌, ℕ, ◌≤◌, List, length};
ghost use Rattle.rows.specs.Steps.{Gate};
ghost use Rattle.machine.specs.Local.{local};
ghost use Rattle.depth.specs.Counts.{depth_rule};
ghost use Rattle.depth.specs.Means.{depth_means};
ghost use Rattle.chains.specs.Chained.{Decodes, Deep};
ghost use Rattle.chains.specs.Greatest.{Greatest};
ghost use Rattle.chains.specs.Sourced.{Counted};

use crate::play::play;
use depth::Depth;
use machine::Machine;
use rows::{Gate as GateRow, Wire};

// Rows and qubits are two parameters below and in `sources`, not a struct: `report` has one of both, and a type of this crate could not have
// the methods that it needs.

// The greatest count of the wires below n.
fn greatest(machine: &Depth, n: u8) -> u64
    ensures { Greatest ((local depth_rule).reads (depth_means machine.now)) n result }
{
    (0..n).map(|q| machine.read(Wire(q))).max().unwrap_or(0)
}

// The counts of the wires after a circuit of at most 64 qubits.
fn counts_of(rows: &[GateRow], qubits: u8) -> Depth
    ensures { (gs : List Gate) → Decodes qubits rows.now gs → qubits ≤ 64 → Counted result qubits gs }
{
    let mut machine = Depth::fresh(qubits);
    play(&mut machine, rows);
    machine
}

// The length of the longest chain, by the counts of the wires below n.
fn longest(machine: &Depth, n: u8) -> u64
    ensures { (gs : List Gate) → Counted machine.now n gs → 1 ≤ n → length gs ≤ 4294967295 → Deep n gs result }
{
    greatest(machine, n)
}

/// How deep a circuit of 1 to 64 qubits is: the length of its longest chain of gates, if there are at most 4,294,967,295.
pub fn depth_of(rows: &[GateRow], qubits: u8) -> u64
    ensures { (gs : List Gate) → Decodes qubits rows.now gs → 1 ≤ qubits → qubits ≤ 64 → length gs ≤ 4294967295 → Deep qubits gs result }
{
    longest(&counts_of(rows, qubits), qubits)
}
