// The circuit of gate rows.
ghost use Rattle.std.specs.Prelude.{◌≡◌, ℕ, ◌<◌, ◌≤◌, length, MatchResult};
ghost use Rattle.rows.specs.Steps.{gate_at};
ghost use Rattle.plan.specs.Circuits.{gates_in, Reads, Miswritten};

use crate::circuit::Circuit;
use rows::{Fault, Gate as GateRow, Kind, Logical, Operation, Refusal};

impl Circuit {
    /// The circuit that the rows write for so many qubits, or the refusal of a bad gate at the first row that it fits.
    pub fn of(qubits: u8, rows: &[GateRow]) -> Result<Circuit, Fault>
        ensures { MatchResult result (λ c. Reads qubits rows.now c) (λ f. Miswritten qubits rows.now f) }
    {
        let mut gates = [Operation::One(Kind::X, 0, Logical(0)); 1024];
        // Written by index: with `gates.iter_mut().zip(rows)` the proof does not close, as nothing is known of what a zip over iter_mut wrote.
        for (i, row) in rows.iter().enumerate() {
            if i >= 1024 {
                return Err(Refusal::BadGate.at(1024));
            }
            gates[i] = row.decode(qubits).ok_or(Refusal::BadGate.at(i))?;
        }
        Ok(Circuit {
            gates,
            count: rows.len(),
        })
    }
}
