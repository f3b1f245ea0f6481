// Shortest distances along couplings, found breadth first.
ghost use Rattle.std.specs.Prelude.{◌≡◌, ℕ, ◌+◌, ◌<◌, ◌≤◌, Bool, true, false, List, [], length, None, is_some, MatchBool, MatchOption, slice_index, slice_index_or};
ghost use Rattle.chip.specs.Charts.{Inside};
ghost use Rattle.chip.specs.Tables.{flag_at, links, Found, IsFound, size, Level, Grown, Distances, AllReached};

use crate::couplings::Couplings;

/// For each wire the number of couplings by which it was reached; none where it is not found.
#[derive(Clone, Copy)]
pub(crate) struct Reach {
    pub steps: [Option<u8>; 64],
}

// What has grown is promised alike for a wire, for its neighbours and for a round: one promise at three sizes, which no type could hold.
impl Reach {
    /// Wire `a` alone is found.
    fn start(a: usize) -> Reach
        requires wire { a < 64 }
        ensures level { (table : List (List Bool)) → Level table a 0 result.steps }
        ensures one { 0 < size result.steps }
        ensures whole { length result.steps ≡ 64 }
    {
        let mut steps = [None; 64];
        steps[a] = Some(0);
        Reach { steps }
    }

    // A bool here and below, not an Option: whether a wire is new is the answer, and neither answer is a failure.
    /// Finds wire `v` by its coupling with wire `u`, `d` couplings away, if it is coupled and not found yet.
    fn visit(&mut self, couplings: &Couplings, u: usize, v: usize, d: u8) -> bool
        requires wires { (u < 64) × (v < 64) }
        requires level { d < 64 }
        requires from { Found self.old.steps u d }
        ensures grown { Grown couplings.now.rows d self.old.steps self.new.steps }
        ensures covered { flag_at couplings.now.rows u v ≡ true → IsFound self.new.steps v }
        ensures changed { MatchBool result (size self.old.steps < size self.new.steps) (self.new.steps ≡ self.old.steps) }
    {
        if !couplings.rows[u][v] || self.steps[v].is_some() {
            return false;
        }
        self.steps[v] = Some(d + 1);
        true
    }

    /// Finds the neighbours of wire `u`, if it is `d` couplings away. Answers whether one was new.
    fn expand(&mut self, couplings: &Couplings, u: usize, d: u8) -> bool
        requires wire { u < 64 }
        requires level { d < 64 }
        ensures grown { Grown couplings.now.rows d self.old.steps self.new.steps }
        ensures covered { Found self.old.steps u d → (v : ℕ) → v < 64 → flag_at couplings.now.rows u v ≡ true → IsFound self.new.steps v }
        ensures changed { MatchBool result (size self.old.steps < size self.new.steps) (self.new.steps ≡ self.old.steps) }
    {
        if self.steps[u] != Some(d) {
            return false;
        }
        // A loop over the wires, not `any`: every neighbour is visited, and the closure would change what it captures.
        let mut changed = false;
        for v in 0..64 {
            changed |= self.visit(couplings, u, v, d);
        }
        changed
    }

    /// Finds the neighbours of each wire that is `d` couplings away. Answers whether one was new.
    fn round(&mut self, couplings: &Couplings, d: u8) -> bool
        requires level { d < 64 }
        ensures grown { Grown couplings.now.rows d self.old.steps self.new.steps }
        ensures covered { (u v : ℕ) → u < 64 → v < 64 → Found self.old.steps u d → flag_at couplings.now.rows u v ≡ true → IsFound self.new.steps v }
        ensures changed { MatchBool result (size self.old.steps < size self.new.steps) (self.new.steps ≡ self.old.steps) }
    {
        // A loop over the wires, as in `expand`.
        let mut changed = false;
        for u in 0..64 {
            changed |= self.expand(couplings, u, d);
        }
        changed
    }

    /// The wires that wire `a` reaches, with their distances.
    pub fn from(couplings: &Couplings, a: usize) -> Reach
        requires wire { a < 64 }
        requires inside { Inside (links couplings.now.rows) }
        ensures { AllReached couplings.now.rows a result.steps }
    {
        // A loop, not `find`: each round changes the table, and the first that finds nothing ends it.
        let mut reach = Reach::start(a);
        for d in 0..64 {
            if !reach.round(couplings, d) {
                break;
            }
        }
        reach
    }

    /// The lowest of `n` wires that is not found.
    pub fn missing(&self, n: usize) -> Option<usize>
        requires { n ≤ 64 }
        ensures { MatchOption result
            ((w : ℕ) → w < n → IsFound self.now.steps w)
            (λ w. (w < n) × (slice_index_or self.now.steps w None ≡ None) × ((v : ℕ) → v < w → IsFound self.now.steps v)) }
    {
        self.steps[..n].iter().position(|steps| steps.is_none())
    }

    /// By how many couplings each wire was reached, 0 where it is not found.
    fn row(&self) -> [u8; 64]
        ensures { (v d : ℕ) → Found self.now.steps v d → slice_index result v ≡ d }
    {
        std::array::from_fn(|v| self.steps[v].unwrap_or(0))
    }
}

/// The distances from each of the first `n` wires.
pub(crate) fn distances(couplings: &Couplings, n: usize) -> [[u8; 64]; 64]
    requires wires { n ≤ 64 }
    requires inside { Inside (links couplings.now.rows) }
    ensures { (a : ℕ) → a < n → Distances couplings.now.rows a (slice_index_or result a []) }
{
    std::array::from_fn(
        |a: usize| -> [u8; 64]
            requires { Inside (links couplings.now.rows) × (n ≤ 64) }
            ensures { a < n → Distances couplings.entry.now.rows a result }
        {
            if a < n {
                Reach::from(couplings, a).row()
            } else {
                [0; 64]
            }
        },
    )
}
