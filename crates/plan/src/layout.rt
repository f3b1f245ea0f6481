// What a plan is laid from.
use chip::ChipRecords;
use rows::{Gate as GateRow, Wire};

/// A chip as it is written, so many qubits, the first place of each, and the rows of the circuit's gates.
#[derive(Clone, Copy)]
pub struct Layout<'a> {
    pub chip: ChipRecords<'a>,
    pub qubits: u8,
    pub places: &'a [Wire],
    pub gates: &'a [GateRow],
}
