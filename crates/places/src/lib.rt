//! Where the qubits of a plan are on the chip: one to one, by the type itself.

#![tactic(auto)]

mod places;

pub use places::Places;
