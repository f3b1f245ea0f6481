//! Steps offered to a book one after the other, and then clearing; and what the answers are worth.

#![tactic(auto)]

mod trial;
mod whole;

pub use trial::Trial;
pub use whole::audit;
