//! Machines made of a machine: exchange as three cnots, and wires under other names.

#![tactic(auto)]

mod names;
mod panel;
mod thirds;

pub use panel::Panel;
pub use thirds::Thirds;
