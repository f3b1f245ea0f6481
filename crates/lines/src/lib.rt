//! One line of a circuit's text: its tokens, the number of qubits that it gives, the gate that it writes.

#![tactic(auto)]

mod gate;
mod heading;
mod line;
mod number;
mod operands;
mod token;
mod written;

pub use gate::gate_of;
pub use heading::qubits_of;
pub use number::number_up_to;
pub use token::{Token, front};
