// Looking qubits and wires up, and trading two wires.
ghost use Rattle.std.specs.Prelude.{◌≡◌, ℕ, ◌<◌, ◌≤◌, ◌⊎◌, MatchOption, slice_index};
ghost use Rattle.sheet.specs.Sheets.{places_traded};
ghost use Rattle.places.specs.Placing.{places_of, SameSize};

use crate::places::Places;
use rows::{Logical, Wire, trade};

impl Places {
    /// The number of qubits.
    pub fn qubits(&self) -> u8
        ensures count { result ≡ self.now.qubits }
        ensures range { (result ≤ self.now.wires) × (result ≤ 64) }
    {
        self.qubits
    }

    /// The wire of a qubit; none for a number that is no qubit's.
    pub fn wire_of(&self, qubit: Logical) -> Option<Wire>
        ensures { MatchOption result
            (self.now.qubits ≤ qubit.0)
            (λ w. (qubit.0 < self.now.qubits) × (w.0 ≡ slice_index (places_of self.now) qubit.0) × (w.0 < self.now.wires)) }
    {
        if qubit.0 >= self.qubits {
            return None;
        }
        Some(Wire(self.at[qubit.0 as usize]))
    }

    /// The qubit on a wire; none for an empty wire, or one that is not the chip's.
    pub fn qubit_on(&self, wire: Wire) -> Option<Logical>
        ensures { MatchOption result
            ((q : ℕ) → q < self.now.qubits → ¬ (slice_index (places_of self.now) q ≡ wire.0))
            (λ q. (q.0 < self.now.qubits) × (slice_index (places_of self.now) q.0 ≡ wire.0)) }
    {
        if wire.0 >= self.wires {
            return None;
        }
        let entry = self.on[wire.0 as usize];
        if entry < self.qubits {
            Some(Logical(entry))
        } else {
            None
        }
    }

    /// Two wires trade their qubits, either of which may be missing; where one is not a wire of the chip, nothing changes.
    pub fn exchange(&mut self, a: Wire, b: Wire)
        ensures size { SameSize self.old self.new }
        ensures traded { a.0 < self.old.wires → b.0 < self.old.wires →
            places_of self.new ≡ places_traded a.0 b.0 (places_of self.old) }
        ensures untouched { (self.old.wires ≤ a.0) ⊎ (self.old.wires ≤ b.0) → self.new ≡ self.old }
    {
        if a.0 >= self.wires || b.0 >= self.wires {
            return;
        }
        let (x, y) = (self.on[a.0 as usize], self.on[b.0 as usize]);
        trade(&mut self.at, x as usize, y as usize);
        trade(&mut self.on, a.0 as usize, b.0 as usize);
    }
}
