// Places of qubits.
ghost use Rattle.std.specs.Prelude.{◌≡◌, ℕ, ◌<◌, ◌≤◌, length, slice_index};

mod access;
mod make;

/// The wire of each qubit, and the qubit on each wire. There is an entry for each wire of the chip: the qubits come first,
/// and then one for each wire that holds no qubit, so that an exchange always trades two entries.
// Two arrays, each the inverse of the other, not a map: no call of this layer may allocate, as it is turned away only by the listed
// refusals. Clauses say `places_of`, and there is no model, as it does not give back the entries of empty wires.
#[derive(Clone, Copy)]
pub struct Places {
    wires: u8,
    qubits: u8,
    /// The wire of each entry.
    at: [u8; 64],
    /// The entry on each wire.
    on: [u8; 64],
    ghost few: { wires ≤ 64 },
    ghost enough: { qubits ≤ wires },
    ghost inside: { ((e : ℕ) → e < wires → slice_index at e < wires) },
    ghost back: { ((e : ℕ) → e < wires → slice_index on (slice_index at e) ≡ e) },
    ghost held: { ((w : ℕ) → w < wires → slice_index on w < wires) },
    ghost there: { ((w : ℕ) → w < wires → slice_index at (slice_index on w) ≡ w) },
    ghost long: { length at ≡ 64 },
}
