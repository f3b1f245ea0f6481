//! How deep a circuit is, and which qubits the result of a qubit can depend on.

#![tactic(auto)]

mod count;
mod deep;
mod play;
mod sources;

pub use deep::depth_of;
pub use sources::Sources;
