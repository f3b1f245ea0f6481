// Laying a plan, and keeping a step.
ghost use Rattle.std.specs.Prelude.{◌≡◌, Err, MatchResult};
ghost use Rattle.rows.specs.declared.refusal.Fault.{Fault as TheFault};
ghost use Rattle.rows.specs.Refusals.{Turned};
ghost use Rattle.rows.specs.Steps.{first_wire, second_wire, step_at};
ghost use Rattle.sheet.specs.Sheets.{Log as SheetLog, fresh};
ghost use Rattle.sheet.specs.Refusals.{StepFits};
ghost use Rattle.sheet.specs.Runs.{LaidPlan};
ghost use Rattle.plan.specs.Laying.{plan_in, layout_in, Fits, LaysPlan};
ghost use Rattle.book.specs.Books.{Holds, KeepsStep};

use crate::book::Book;
use crate::log::Log;
use crate::verdict::Turn;
use plan::{Ability, Layout, Plan};
use rows::{Action, Fault, Placed, Step, Wire};

/// The wires of a step; a gate on one wire has it for both.
pub(crate) fn wires_of(action: Action) -> (Wire, Wire)
    ensures { (result.0.0 ≡ first_wire (step_at action)) × (result.1.0 ≡ second_wire (step_at action)) }
{
    match action {
        Action::Gate(Placed::One(_, _, a)) => (a, a),
        Action::Gate(Placed::Two(_, _, a, b)) => (a, b),
        Action::Exchange(a, b) => (a, b),
    }
}

impl Book {
    /// A freshly laid plan.
    fn fresh(plan: Plan) -> Book
        ensures plan { result.plan ≡ plan }
        ensures log { LaidPlan (plan_in plan) → Holds result (fresh (plan_in plan)) }
    {
        let log = Log::fresh(*plan.first());
        Book { plan, log }
    }

    /// Lays a circuit at its first places on a chip, over a machine of this ability: all gates open, every wire free from
    /// cycle 0. Or the refusal of lowest rank at its first place.
    pub fn lay(ability: &Ability, layout: Layout) -> Result<Book, Fault>
        ensures { MatchResult result
            (λ b. LaysPlan ability.now (layout_in layout.entry) b.plan × Holds b (fresh (plan_in b.plan)))
            (λ f. Turned (Fits ability.now (layout_in layout.entry)) f) }
    {
        let plan = Plan::lay(ability, layout)?;
        Ok(Book::fresh(plan))
    }

    /// Keeps a step: its wires are free from its end, and its gate is done or its wires trade their qubits. Or the
    /// refusal of lowest rank, which changes nothing.
    pub fn keep(&mut self, step: Step) -> Result<Action, Fault>
        ensures plan { self.new.plan ≡ self.old.plan }
        ensures keeps { (l : SheetLog) → Holds self.old l → MatchResult result
            (λ a. KeepsStep self.old l step a self.new)
            (λ f. Turned (StepFits (plan_in self.old.plan) l step) f) }
        ensures untouched { (f : TheFault) → result ≡ Err f → self.new ≡ self.old }
    {
        let verdict = self.check(step)?;
        let (a, b) = wires_of(verdict.action);
        self.log.lock(a, b, verdict.end);
        match verdict.turn {
            Turn::Gate(i) => self.log.mark(i),
            Turn::Exchange(a, b) => self.log.trade(a, b),
        }
        Ok(verdict.action)
    }
}
