// Looking gates of a circuit up.
ghost use Rattle.std.specs.Prelude.{◌≡◌, ℕ, ◌<◌, ◌≤◌, true, false, List, length, MatchOption};
ghost use Rattle.rows.specs.Steps.{gate_at, kind_of};
ghost use Rattle.plan.specs.Abilities.{known};
ghost use Rattle.plan.specs.Circuits.{gates_in, number, NextOf, FirstSharing, NoneSharing};

use crate::ability::Ability;
use crate::circuit::Circuit;
use rows::Operation;

impl Circuit {
    /// The number of gates.
    pub fn count(&self) -> usize
        ensures count { result ≡ length (gates_in self.now) }
        ensures range { result ≤ 1024 }
    {
        self.count
    }

    /// A gate by its number; none past the last.
    pub fn gate(&self, i: usize) -> Option<Operation>
        ensures { MatchOption result
            (length (gates_in self.now) ≤ i)
            (λ g. (i < length (gates_in self.now)) × (gate_at g ≡ number (gates_in self.now) i)) }
    {
        self.gates[..self.count].get(i).copied()
    }

    /// The first gate of a kind that is not known.
    pub fn unknown(&self, ability: &Ability) -> Option<usize>
        ensures { MatchOption result
            ((i : ℕ) → i < length (gates_in self.now) → known ability.now.kinds (kind_of (number (gates_in self.now) i)) ≡ true)
            (λ i. (i < length (gates_in self.now)) × (known ability.now.kinds (kind_of (number (gates_in self.now) i)) ≡ false)
            × ((j : ℕ) → j < i → known ability.now.kinds (kind_of (number (gates_in self.now) j)) ≡ true)) }
    {
        self.gates[..self.count]
            .iter()
            .position(|gate| !ability.knows(gate.kind()))
    }

    /// The first gate that is not done and has a qubit in common with this one.
    fn first_sharing(&self, done: &[bool; 1024], gate: Operation) -> Option<usize>
        ensures { MatchOption result
            (NoneSharing (gates_in self.now) done.now (gate_at gate) self.now.count)
            (λ i. FirstSharing (gates_in self.now) done.now (gate_at gate) i) }
    {
        // By number, not over a zip of gates and flags, which took longer: each gate that is offered passes all done gates here.
        (0..self.count).find(|i| !done[*i] && self.gates[*i].shares(gate))
    }

    /// The number of this gate, if it is one of the circuit's that is not done, and no earlier gate that is not done has a
    /// qubit in common with it.
    pub fn next(&self, done: &[bool; 1024], gate: Operation) -> Option<usize>
        ensures { MatchOption result
            ((i : ℕ) → ¬ NextOf (gates_in self.now) done.now (gate_at gate) i)
            (λ i. NextOf (gates_in self.now) done.now (gate_at gate) i) }
    {
        let i = self.first_sharing(done, gate)?;
        self.gates[i].is(gate).then_some(i)
    }
}
