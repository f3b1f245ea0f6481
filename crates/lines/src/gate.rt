// The gate row of a line, or why the line is refused.
ghost use Rattle.std.specs.Prelude.{◌≡◌, MatchBool, MatchResult};
ghost use Rattle.rows.specs.Steps.{Gate, gate_at, row_of_gate};
ghost use Rattle.rows.specs.Refusals.{Accepted, Turned};
ghost use Rattle.lines.specs.Grammar.{Writes, Within, Doubled, LineFits, gate_in};

use crate::line::parse_gate;
use crate::written::Written;
use rows::{Fault, Gate as GateRow, Logical, Operation, Refusal};

// Whether the gate's qubits are qubits of a circuit of n.
fn is_within(gate: Written, n: u8) -> bool
    ensures { MatchBool result (Within n (gate_in gate)) (¬ Within n (gate_in gate)) }
{
    match gate {
        Written::One(_, _, a) => a < n as u32,
        Written::Two(_, _, a, b) => a < n as u32 && b < n as u32,
    }
}

// Whether the gate names one qubit twice.
fn is_doubled(gate: Written) -> bool
    ensures { MatchBool result (Doubled (gate_in gate)) (¬ Doubled (gate_in gate)) }
{
    matches!(gate, Written::Two(_, _, a, b) if a == b)
}

// The gate on qubits of a circuit of n.
fn on_qubits(gate: Written, n: u8) -> Operation
    requires { Within n (gate_in gate) }
    ensures { gate_at result ≡ gate_in gate }
{
    match gate {
        Written::One(kind, k, a) => Operation::One(kind, k, Logical(a as u8)),
        Written::Two(kind, k, a, b) => {
            Operation::Two(kind, k, Logical(a as u8), Logical(b as u8))
        }
    }
}

// The gate that a line writes, in a circuit of so many qubits where rows are left for so many more gates.
#[derive(Drop)]
struct GateLine<'a> {
    line: &'a [u8],
    at: usize,
    qubits: u8,
    left: usize,
    gate: Written,
    ghost writes: { Writes line.now (gate_in gate) },
}

// `LineFits` of the four parts stands in each clause, as in that of the public call, which has them as parameters.
impl GateLine<'_> {
    // Refuses a gate whose qubits are not all qubits of the circuit.
    fn within(&self) -> Result<(), Fault>
        ensures { MatchResult result
            (λ _. Within self.now.qubits (gate_in self.now.gate))
            (λ f. Turned (LineFits self.now.qubits self.now.left self.now.line.now self.now.at) f) }
    {
        if is_within(self.gate, self.qubits) {
            return Ok(());
        }
        Err(Refusal::OffCircuit.at(self.at))
    }

    // Refuses a gate that names one qubit twice.
    fn apart(&self) -> Result<(), Fault>
        requires { Within self.now.qubits (gate_in self.now.gate) }
        ensures { MatchResult result
            (λ _. ¬ Doubled (gate_in self.now.gate))
            (λ f. Turned (LineFits self.now.qubits self.now.left self.now.line.now self.now.at) f) }
    {
        if is_doubled(self.gate) {
            return Err(Refusal::Twice.at(self.at));
        }
        Ok(())
    }

    // Refuses a gate for which no row is left.
    fn row_left(&self) -> Result<(), Fault>
        requires within { Within self.now.qubits (gate_in self.now.gate) }
        requires apart { ¬ Doubled (gate_in self.now.gate) }
        ensures { MatchResult result
            (λ _. Accepted (LineFits self.now.qubits self.now.left self.now.line.now self.now.at))
            (λ f. Turned (LineFits self.now.qubits self.now.left self.now.line.now self.now.at) f) }
    {
        if self.left == 0 {
            return Err(Refusal::NoRow.at(self.at));
        }
        Ok(())
    }
}

/// The row of the gate that `line` writes, the line `at` of its text, in a circuit of so many qubits
/// where rows are left for so many more gates.
pub fn gate_of(line: &[u8], at: usize, qubits: u8, left: usize) -> Result<GateRow, Fault>
    ensures { MatchResult result
        (λ row. Accepted (LineFits qubits left line.now at) × ((g : Gate) × Writes line.now g × (row ≡ row_of_gate g)))
        (λ f. Turned (LineFits qubits left line.now at) f) }
{
    let Some(gate) = parse_gate(line) else {
        return Err(Refusal::Unreadable.at(at));
    };
    let read = GateLine {
        line,
        at,
        qubits,
        left,
        gate,
    };
    read.within()?;
    read.apart()?;
    read.row_left()?;
    Ok(on_qubits(gate, qubits).row())
}
