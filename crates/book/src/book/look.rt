// What a book shows, and whether the plan is clear.
ghost use Rattle.std.specs.Prelude.{◌≡◌, ℕ, ◌<◌, ◌≤◌, true, false, length, MatchBool, MatchOption, MatchResult, slice_index, slice_index_or};
ghost use Rattle.rows.specs.Refusals.{Accepted, Turned};
ghost use Rattle.chip.specs.Charts.{Lowest};
ghost use Rattle.sheet.specs.Sheets.{Log as SheetLog, Open, NoneOpen, tally};
ghost use Rattle.sheet.specs.Refusals.{ClearFits};
ghost use Rattle.plan.specs.Laying.{plan_in};
ghost use Rattle.plan.specs.Circuits.{gates_in};
ghost use Rattle.book.specs.Books.{Holds, ListedOpen, tallied};

use crate::book::Book;
use crate::verdict::Counts;
use places::Places;
use plan::Plan;
use rows::{Fault, Logical, Refusal, Wire};

impl Book {
    /// What is laid.
    pub fn plan(&self) -> &Plan
        ensures { result.now ≡ self.now.plan }
    {
        &self.plan
    }

    /// The present places.
    pub fn places(&self) -> &Places
        ensures { result.now ≡ self.now.log.places }
    {
        &self.log.places
    }

    /// The wire of a qubit as laid; none for a number that is no qubit's.
    pub fn first_wire_of(&self, qubit: Logical) -> Option<Wire>
        ensures { MatchOption result
            (length (plan_in self.now.plan).first ≤ qubit.0)
            (λ w. (qubit.0 < length (plan_in self.now.plan).first) × (w.0 ≡ slice_index (plan_in self.now.plan).first qubit.0)) }
    {
        self.plan.first().wire_of(qubit)
    }

    /// The wire of a qubit now; none for a number that is no qubit's.
    pub fn wire_of(&self, qubit: Logical) -> Option<Wire>
        ensures { (l : SheetLog) → Holds self.now l → MatchOption result
            (length l.places ≤ qubit.0)
            (λ w. (qubit.0 < length l.places) × (w.0 ≡ slice_index l.places qubit.0)) }
    {
        self.log.places.wire_of(qubit)
    }

    /// The qubit on a wire now; none for an empty wire, or one that is not the chip's.
    pub fn qubit_on(&self, wire: Wire) -> Option<Logical>
        ensures { (l : SheetLog) → Holds self.now l → MatchOption result
            ((q : ℕ) → q < length l.places → ¬ (slice_index l.places q ≡ wire.0))
            (λ q. (q.0 < length l.places) × (slice_index l.places q.0 ≡ wire.0)) }
    {
        self.log.places.qubit_on(wire)
    }

    /// The cycle from which a wire is free; none for a wire that is not the chip's.
    pub fn free_from(&self, wire: Wire) -> Option<u32>
        ensures { (l : SheetLog) → Holds self.now l → MatchOption result
            (length l.free ≤ wire.0)
            (λ c. (wire.0 < length l.free) × (c ≡ slice_index l.free wire.0)) }
    {
        let wires = self.plan.chip().wires() as usize;
        self.log.free[..wires].get(wire.0 as usize).copied()
    }

    /// Whether a gate is open, by its number; none past the last gate.
    pub fn is_open(&self, i: usize) -> Option<bool>
        ensures { (l : SheetLog) → Holds self.now l → MatchOption result
            (length (plan_in self.now.plan).gates ≤ i)
            (λ o. (i < length (plan_in self.now.plan).gates) × MatchBool o (Open l i) (¬ Open l i)) }
    {
        let count = self.plan.circuit().count();
        self.log.done[..count].get(i).map(|done| !done)
    }

    /// The first gate that is not done, by the table.
    fn first_undone(&self) -> Option<usize>
        ensures { MatchOption result
            ((i : ℕ) → i < length (plan_in self.now.plan).gates → slice_index_or self.now.log.done i false ≡ true)
            (λ i. (i < length (plan_in self.now.plan).gates) × (slice_index_or self.now.log.done i false ≡ false)
            × ((j : ℕ) → j < i → slice_index_or self.now.log.done j false ≡ true)) }
    {
        let count = self.plan.circuit().count();
        self.log.done[..count].iter().position(|done| !done)
    }

    /// The lowest open gate; none where no gate is open.
    pub fn lowest_open(&self) -> Option<usize>
        ensures { (l : SheetLog) → Holds self.now l → MatchOption result
            (NoneOpen (plan_in self.now.plan) l)
            (λ i. Lowest (ListedOpen (plan_in self.now.plan) l) i) }
    {
        self.first_undone()
    }

    /// What is counted of the plan, if no gate is open; else the refusal at the lowest open gate.
    pub fn clear(&self) -> Result<Counts, Fault>
        ensures { (l : SheetLog) → Holds self.now l → MatchResult result
            (λ c. Accepted (ClearFits (plan_in self.now.plan) l) × (tallied c ≡ tally (plan_in self.now.plan) l))
            (λ f. Turned (ClearFits (plan_in self.now.plan) l) f) }
    {
        if let Some(i) = self.lowest_open() {
            return Err(Refusal::Open.at(i));
        }
        Ok(Counts {
            gates: self.plan.circuit().count() as u32,
            kept: self.log.kept,
            exchanges: self.log.exchanges,
            last: self.log.last,
        })
    }
}
