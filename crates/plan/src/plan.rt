// A laid plan.
ghost use Rattle.std.specs.Prelude.{◌≡◌};
ghost use Rattle.sheet.specs.Runs.{LaidPlan};
ghost use Rattle.plan.specs.Plans.{plan_at};

mod lay;

use crate::circuit::Circuit;
use chip::Chip;
use places::Places;

// Clauses say `plan_in`, and there is no model: a plan is Copy, and the plan of a sheet does not give the tables back.
/// What is laid and does not change: a chip, the first places of the qubits on it, and the circuit.
#[derive(Clone, Copy)]
pub struct Plan {
    chip: Chip,
    first: Places,
    circuit: Circuit,
    ghost sized: { first.wires ≡ chip.wires },
    ghost laid: { ∥ LaidPlan (plan_at chip first circuit) ∥₁ },
}
