//! What the program `check` answers to its input: a circuit's text, a line `steps`, and the steps, one a line.

#![tactic(auto)]

mod cut;
mod error;
mod print;
mod steps;
mod whole;

pub use cut::circuit_part;
pub use error::CheckError;
pub use print::show_answers;
pub use steps::read_steps;
pub use whole::reply;
