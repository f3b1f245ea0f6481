//! A laid plan: a chip, the first places of the qubits, and the circuit.

#![tactic(auto)]

mod ability;
mod circuit;
mod layout;
mod plan;

pub use ability::Ability;
pub use circuit::Circuit;
pub use layout::Layout;
pub use plan::Plan;
