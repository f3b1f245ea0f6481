// A gate as its line writes it.
use rows::Placed;

/// A gate as its line writes it, at numbers that may be past the circuit's qubits.
pub(crate) type Written = Placed<u32>;
