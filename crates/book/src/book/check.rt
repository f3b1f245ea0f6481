// The verdict on a step.
ghost use Rattle.std.specs.Prelude.{◌≡◌, ℕ, ◌+◌, ◌<◌, ◌≤◌, max, true, false, Result, MatchOption};
ghost use Rattle.rows.specs.Steps.{step_at};
ghost use Rattle.chip.specs.Charts.{joined, step_cycles};
ghost use Rattle.sheet.specs.Sheets.{Log as SheetLog, Ordered, starting, end};
ghost use Rattle.places.specs.Placing.{places_of};
ghost use Rattle.plan.specs.Laying.{plan_in};
ghost use Rattle.book.specs.Books.{Holds, Judges, Takes, Brings, BringsNone};

use crate::book::Book;
use crate::book::keep::wires_of;
use crate::verdict::{Turn, Verdict};
use rows::{Action, Fault, Operation, Placed, Refusal, Step};

impl Book {
    /// A refusal at the number of kept steps.
    fn refuse(&self, refusal: Refusal) -> Fault
        ensures { result ≡ record { refusal = refusal; place = self.now.log.kept } }
    {
        refusal.at(self.log.kept as usize)
    }

    /// Whether the step's wires, if they are two, are coupled.
    fn is_joined(&self, action: Action) -> bool
        ensures { result ≡ joined (plan_in self.now.plan).chart (step_at action) }
    {
        match action {
            Action::Gate(Placed::One(_, _, _)) => true,
            Action::Gate(Placed::Two(_, _, a, b)) | Action::Exchange(a, b) => {
                self.plan.chip().coupled(a, b)
            }
        }
    }

    /// The cycles that the step lasts.
    fn cycles(&self, action: Action) -> u16
        ensures { result ≡ step_cycles (plan_in self.now.plan).chart (step_at action) }
    {
        match action {
            Action::Gate(gate) => self.plan.chip().duration(gate.kind()),
            Action::Exchange(_, _) => self.plan.chip().exchange_duration(),
        }
    }

    /// The gate, at its qubits, that the step is on the qubits of its wires; none for an empty wire, and for an exchange.
    fn brought(&self, action: Action) -> Option<Operation>
        ensures { MatchOption result
            (BringsNone (places_of self.now.log.places) self.now.log.places.qubits (step_at action))
            (λ g. Brings (places_of self.now.log.places) self.now.log.places.qubits (step_at action) g) }
    {
        match action {
            Action::Gate(Placed::One(kind, k, a)) => {
                let q = self.log.places.qubit_on(a)?;
                Some(Placed::One(kind, k, q))
            }
            Action::Gate(Placed::Two(kind, k, a, b)) => {
                let q = self.log.places.qubit_on(a)?;
                let s = self.log.places.qubit_on(b)?;
                Some(Placed::Two(kind, k, q, s))
            }
            Action::Exchange(_, _) => None,
        }
    }

    /// What the step does to the plan; none where it does not meet order.
    fn turn(&self, action: Action) -> Option<Turn>
        ensures { (l : SheetLog) → Holds self.now l → MatchOption result
            (¬ Ordered (plan_in self.now.plan) l (step_at action))
            (λ t. Takes (plan_in self.now.plan) l (step_at action) t) }
    {
        if let Action::Exchange(a, b) = action {
            return Some(Turn::Exchange(a, b));
        }
        let gate = self.brought(action)?;
        let i = self.plan.circuit().next(&self.log.done, gate)?;
        Some(Turn::Gate(i))
    }

    /// The rules in their order: shape, coupling, busy, late, order, room.
    fn judge(&self, step: Step) -> Result<Verdict, Fault>
        ensures { (l : SheetLog) → Holds self.now l → Judges (plan_in self.now.plan) l step result }
    {
        let action = step
            .decode(self.plan.chip().wires())
            .ok_or(self.refuse(Refusal::BadStep))?;
        if !self.is_joined(action) {
            return Err(self.refuse(Refusal::Uncoupled));
        }
        let (a, b) = wires_of(action);
        if step.start < self.log.free_from(a, b) {
            return Err(self.refuse(Refusal::Busy));
        }
        let cycles = self.cycles(action) as u32;
        let end = step
            .start
            .checked_add(cycles)
            .ok_or(self.refuse(Refusal::Late))?;
        let turn = self.turn(action).ok_or(self.refuse(Refusal::NotNext))?;
        if self.log.kept >= 262144 {
            return Err(self.refuse(Refusal::Full));
        }
        Ok(Verdict { action, end, turn })
    }

    /// What keeping the step does, or the refusal of lowest rank: shape, coupling, busy, late, order, room. Exactly one
    /// answer fits each sheet and step.
    pub fn check(&self, step: Step) -> Result<Verdict, Fault>
        ensures judges { (l : SheetLog) → Holds self.now l → Judges (plan_in self.now.plan) l step result }
        ensures only { (l : SheetLog) → Holds self.now l → (other : Result Verdict Fault) → Judges (plan_in self.now.plan) l step other → other ≡ result }
    {
        self.judge(step)
    }
}
