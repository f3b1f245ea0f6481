// What is read of a circuit besides its rows.

/// The number of qubits and of gates of a circuit.
#[derive(Clone, Copy, Debug, PartialEq)]
pub struct Circuit {
    pub qubits: u8,
    pub gates: usize,
}
