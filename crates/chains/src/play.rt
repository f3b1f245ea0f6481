// A circuit run on a machine, each qubit on the wire of its number.
ghost use Rattle.std.specs.Prelude.{◌≡◌, ℕ, List, map, Some};
ghost use Rattle.rows.specs.Steps.{Gate, gate, gate_of};
ghost use Rattle.machine.specs.Machines.{run};
ghost use Rattle.chains.specs.Chained.{Decodes};

use machine::Machine;
use rows::{Gate as GateRow, Kind, Wire};

// The gate of a row.
fn apply<M: Machine>(machine: &mut M, row: GateRow)
    ensures { (n : ℕ) (g : Gate) → gate_of n row ≡ Some g → M.Machine.means machine.new ≡ M.Machine.acts.gated g (M.Machine.means machine.old) }
{
    if let Ok(kind) = Kind::try_from(row.kind) {
        machine.gate(kind, Wire(row.first.0), Wire(row.second.0), row.k);
    }
}

// The gates of the rows, one after the other.
pub(crate) fn play<M: Machine>(machine: &mut M, rows: &[GateRow])
    ensures { (n : ℕ) (gs : List Gate) → Decodes n rows.now gs →
        M.Machine.means machine.new ≡ run M.Machine.acts (map gate gs) (M.Machine.means machine.old) }
{
    for row in rows {
        apply(machine, *row);
    }
}
