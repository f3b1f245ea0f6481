//! A chip from its records: couplings, durations and shortest distances.

#![tactic(auto)]

mod chip;
mod couplings;
mod reach;
mod records;

pub use chip::Chip;
pub use records::ChipRecords;
