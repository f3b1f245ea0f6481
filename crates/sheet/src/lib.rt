//! The sheet of a laid plan, as an operator would keep it by hand: what is laid, what is kept, and why a call is refused.
//! This crate has definitions and laws alone; `book` keeps such a sheet.

#![tactic(auto)]
