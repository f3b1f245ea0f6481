// Rows of gates and steps, and what they decode to.
ghost use Rattle.std.specs.Prelude.{◌≡◌, ℕ, Some};
ghost use Rattle.std.specs.Option.{option_map};
ghost use Rattle.rows.specs.Steps.{gate_of, gate_at, row_of_gate, step_of, step_at, written, GoodGate, GoodStep};

use crate::kind::Kind;
use crate::place::{Logical, Wire};
use crate::placed::{Placed, two_below};
use crate::step_kind::StepKind;

/// A gate row as it comes, right or wrong: a kind's code, its qubits (the second is 0 for a one-qubit kind), and k.
// The kind is a byte: rows are given as bytes, and a row that is no gate has to be expressible, so that it can be refused.
#[derive(Clone, Copy, Debug, Default, PartialEq, Eq)]
pub struct Gate {
    pub kind: u8,
    pub first: Logical,
    pub second: Logical,
    pub k: u8,
}

/// A step row as it comes, right or wrong: as a gate row, on wires, with its start cycle. Code 12 is the exchange.
// A byte for the kind, as in a gate row. It is flat, as it is given: clauses, tests and the format name these five fields.
#[derive(Clone, Copy, Debug, PartialEq, Eq)]
pub struct Step {
    pub kind: u8,
    pub first: Wire,
    pub second: Wire,
    pub k: u8,
    pub start: u32,
}

/// What a good gate row writes: a gate at qubits.
pub type Operation = Placed<Logical>;

/// What a good step row writes: a gate at wires, or an exchange of two wires.
#[derive(Clone, Copy, Debug, PartialEq, Eq)]
pub enum Action {
    Gate(Placed<Wire>),
    Exchange(Wire, Wire),
}

impl Gate {
    /// What the row writes in a circuit of so many qubits, if it is a good row there.
    pub fn decode(self, qubits: u8) -> Option<Operation>
        ensures { option_map gate_at result ≡ gate_of qubits self }
    {
        let kind = Kind::try_from(self.kind).ok()?;
        Placed::of_row(qubits, kind, self.first, self.second, self.k)
    }
}

impl Placed<Logical> {
    /// The row that writes it; where it is a gate of a circuit of n qubits, the row decodes to it again.
    // A method, not From: the row of an action takes a start cycle, and both have one name.
    pub fn row(self) -> Gate
        ensures value { result ≡ row_of_gate (gate_at self) }
        ensures decodes { (n : ℕ) → GoodGate n (gate_at self) → gate_of n result ≡ Some (gate_at self) }
    {
        match self {
            Placed::One(kind, k, first) => Gate {
                kind: kind.code(),
                first,
                second: Logical(0),
                k,
            },
            Placed::Two(kind, k, first, second) => Gate {
                kind: kind.code(),
                first,
                second,
                k,
            },
        }
    }
}

impl Step {
    /// What the row writes on a chip of so many wires, if it is a good row there.
    pub fn decode(self, wires: u8) -> Option<Action>
        ensures { option_map step_at result ≡ step_of wires self }
    {
        match StepKind::try_from(self.kind).ok()? {
            StepKind::Gate(kind) => {
                let gate = Placed::of_row(wires, kind, self.first, self.second, self.k)?;
                Some(Action::Gate(gate))
            }
            StepKind::Exchange => {
                if self.k != 0 || !two_below(wires, self.first, self.second) {
                    return None;
                }
                Some(Action::Exchange(self.first, self.second))
            }
        }
    }
}

impl Action {
    /// The row that writes it, with its start cycle; where it is a step on a chip of n wires, the row decodes to it again.
    pub fn row(self, start: u32) -> Step
        ensures value { result ≡ written (step_at self) start }
        ensures decodes { (n : ℕ) → GoodStep n (step_at self) → step_of n result ≡ Some (step_at self) }
    {
        match self {
            Action::Gate(Placed::One(kind, k, first)) => Step {
                kind: kind.code(),
                first,
                second: Wire(0),
                k,
                start,
            },
            Action::Gate(Placed::Two(kind, k, first, second)) => Step {
                kind: kind.code(),
                first,
                second,
                k,
                start,
            },
            Action::Exchange(first, second) => Step {
                kind: StepKind::Exchange.code(),
                first,
                second,
                k: 0,
                start,
            },
        }
    }
}
