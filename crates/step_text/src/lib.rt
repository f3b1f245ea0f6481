//! Steps as text: the line of a step, read and written, and the line of a refusal.

#![tactic(auto)]

mod error;
mod name;
mod operands;
mod print;
mod step;

pub use error::WriteError;
pub use print::{write_refusal, write_step};
pub use step::step_of;
