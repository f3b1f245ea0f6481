//! The report on a circuit's text: what the program `circuit` prints.

#![tactic(auto)]

mod count;
mod print;
mod whole;

pub use whole::report;
