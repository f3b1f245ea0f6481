//! Reads a circuit's text into gate rows.

#![tactic(auto)]

mod circuit;
mod cutting;
mod lexer;
mod reader;

pub use circuit::Circuit;
pub use cutting::first_line;
pub use lexer::{Lexer, Word};
pub use reader::read;
