//! The chips that the programs have with them, by their names.

#![tactic(auto)]

mod named;
mod tables;

pub use named::chip_named;
