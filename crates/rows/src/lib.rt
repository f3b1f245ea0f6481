//! The words that all crates share: gate kinds, qubits and wires, gate and step rows, refusals, and trading two entries.

#![tactic(auto)]

mod kind;
mod place;
mod placed;
mod refusal;
mod row;
mod step_kind;
mod table;

pub use kind::{Kind, NoKind};
pub use place::{Logical, Place, Wire};
pub use placed::{Placed, two_below};
pub use refusal::{Fault, Layer, Refusal};
pub use row::{Action, Gate, Operation, Step};
pub use step_kind::StepKind;
pub use table::{counted, trade};
