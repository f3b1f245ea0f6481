// The qubits that a result can depend on, from a circuit.
ghost use Rattle.std.specs.Prelude.{ℕ, ◌<◌, ◌≤◌, List};
ghost use Rattle.rows.specs.Steps.{Gate};
ghost use Rattle.chains.specs.Chained.{Decodes, Source, Counts};
ghost use Rattle.chains.specs.Sourced.{SourceSet, Caused, Sourced};

use crate::count::count_sources;
use crate::play::play;
use crate::sources::Sources;
use cone::Cone;
use machine::Machine;
use rows::{Gate as GateRow, Logical, Wire};

// The sets of the wires after a circuit of at most 64 qubits.
fn sets_of(rows: &[GateRow], qubits: u8) -> Cone
    ensures { (gs : List Gate) → Decodes qubits rows.now gs → qubits ≤ 64 → Caused result qubits gs }
{
    let mut cone = Cone::fresh(qubits);
    play(&mut cone, rows);
    cone
}

impl Sources {
    /// Those of a circuit of at most 64 qubits.
    pub fn of(rows: &[GateRow], qubits: u8) -> Sources
        ensures { (gs : List Gate) → Decodes qubits rows.now gs → qubits ≤ 64 → Sourced result qubits gs }
    {
        Sources {
            cone: sets_of(rows, qubits),
        }
    }

    // The set of a qubit.
    fn set(&self, q: Logical) -> u64
        ensures { (n : ℕ) (gs : List Gate) → Sourced self.now n gs → q.0 < n → SourceSet result n gs q.0 }
    {
        self.cone.read(Wire(q.0))
    }

    /// How many qubits, of so many, the result of this one can depend on; of more than 64 qubits the first 64 count.
    pub fn count(&self, qubits: u8, q: Logical) -> u8
        ensures { (gs : List Gate) → Sourced self.now qubits gs → qubits ≤ 64 → q.0 < qubits → Counts (Source qubits gs q.0) qubits result }
    {
        count_sources(self.set(q), qubits)
    }
}
