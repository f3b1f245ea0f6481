// What a chip answers.
ghost use Rattle.std.specs.Prelude.{◌≡◌, ℕ, ◌<◌, ◌≤◌, MatchOption};
ghost use Rattle.rows.specs.Kinds.{code};
ghost use Rattle.chip.specs.Charts.{OnChip, Distance, OneNearer, Lowest};
ghost use Rattle.chip.specs.Chips.{chart_of};

use crate::chip::Chip;
use rows::{Kind, Wire};

impl Chip {
    /// The number of wires.
    pub fn wires(&self) -> u8
        ensures count { result ≡ (chart_of self.now).wires }
        ensures range { (1 ≤ result) × (result ≤ 64) }
    {
        self.wires
    }

    /// Whether two wires are coupled; a wire that is not of the chip is coupled with none.
    pub fn coupled(&self, a: Wire, b: Wire) -> bool
        ensures { result ≡ (chart_of self.now).coupled a.0 b.0 }
    {
        a.0 < self.wires && b.0 < self.wires && self.couplings.rows[a.0 as usize][b.0 as usize]
    }

    /// The cycles that a gate of this kind lasts.
    pub fn duration(&self, kind: Kind) -> u16
        ensures cycles { result ≡ (chart_of self.now).cycles (code kind) }
        ensures range { (1 ≤ result) × (result ≤ 4095) }
    {
        self.durations[kind.code() as usize]
    }

    /// The cycles that an exchange lasts.
    pub fn exchange_duration(&self) -> u16
        ensures cycles { result ≡ (chart_of self.now).cycles 12 }
        ensures range { (1 ≤ result) × (result ≤ 4095) }
    {
        self.durations[12]
    }

    /// The fewest couplings between two wires; none where one is not a wire of the chip.
    pub fn distance(&self, a: Wire, b: Wire) -> Option<u8>
        ensures { MatchOption result
            (OnChip (chart_of self.now) a.0 b.0 → ⊥)
            (λ d. OnChip (chart_of self.now) a.0 b.0 × Distance (chart_of self.now) a.0 b.0 d × (d < 64)) }
    {
        if a.0 < self.wires && b.0 < self.wires {
            Some(self.distances[a.0 as usize][b.0 as usize])
        } else {
            None
        }
    }

    /// The lowest neighbour of wire `a` that is one nearer to wire `b`; none where the two have no distance above 0.
    pub fn nearer(&self, a: Wire, b: Wire) -> Option<Wire>
        ensures { MatchOption result
            ((d : ℕ) → 0 < d → Distance (chart_of self.now) a.0 b.0 d → ⊥)
            (λ w. Lowest (OneNearer (chart_of self.now) a.0 b.0) w.0) }
    {
        let here = self.distance(a, b)?;
        (0..self.wires)
            .find(|w| self.coupled(a, Wire(*w))
                && self.distances[*w as usize][b.0 as usize] + 1 == here)
            .map(Wire)
    }
}
