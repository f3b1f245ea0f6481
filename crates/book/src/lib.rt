//! The book of a laid plan: what is done and kept, the verdict on a step, and keeping it.

#![tactic(auto)]

mod book;
mod log;
mod verdict;

pub use book::Book;
pub use verdict::{Counts, Turn, Verdict};
