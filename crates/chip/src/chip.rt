// A chip: its wires, couplings, durations and distances.
ghost use Rattle.std.specs.Prelude.{ℕ, ◌<◌, ◌≤◌, slice_index};
ghost use Rattle.chip.specs.Charts.{Distance, Inside, Symmetric, Irreflexive};
ghost use Rattle.chip.specs.Tables.{chart_at, number_at};

mod access;
mod make;

use crate::couplings::Couplings;

/// A chip of 1 to 64 wires, of which every two are joined by couplings.
// Clauses say `chart_of`, and there is no model: a chip is Copy, and a model of a Copy type has to give all fields back, which a chart does not.
// Arrays for 64 wires, not Vecs: no call of this layer may allocate, as it is turned away only by the listed refusals.
#[derive(Clone, Copy)]
pub struct Chip {
    wires: u8,
    couplings: Couplings,
    /// The cycles of a kind at its code, the exchange's at 12; no kind has code 0.
    durations: [u16; 13],
    distances: [[u8; 64]; 64],
    ghost some: { 1 ≤ wires },
    ghost few: { wires ≤ 64 },
    ghost inside: { Inside (chart_at wires couplings.rows durations) },
    ghost symmetric: { Symmetric (chart_at wires couplings.rows durations) },
    ghost irreflexive: { Irreflexive (chart_at wires couplings.rows durations) },
    ghost timed: { ((k : ℕ) → (1 ≤ k) × (k ≤ 12) → (1 ≤ slice_index durations k) × (slice_index durations k ≤ 4095)) },
    ghost distant: { ((a b : ℕ) → (a < wires) × (b < wires) → ∥ Distance (chart_at wires couplings.rows durations) a b (number_at distances a b) ∥₁) },
    ghost near: { ((a b : ℕ) → (a < wires) × (b < wires) → number_at distances a b < 64) },
}
