//! Tables of cells, one a wire, under the gates of a local rule.

#![tactic(auto)]

mod rule;
mod slices;
mod table;
mod width;

pub use rule::{Local, Signed, Tabled, TrueLocal};
pub use slices::{count_wires, fill_cells, gate_cells, read_cell, trade_cells};
pub use table::Table;
pub use width::Width;
