//! What the program `chips` prints, as a function on bytes.

#![tactic(auto)]

mod counts;
mod report;
mod sections;

pub use report::report as chip_report;
