// The plan of a layout, and what it answers.
ghost use Rattle.std.specs.Prelude.{◌≡◌, MatchResult};
ghost use Rattle.rows.specs.Refusals.{Turned};
ghost use Rattle.plan.specs.Laying.{layout_in, Fits, LaysPlan};

use crate::ability::Ability;
use crate::circuit::Circuit;
use crate::layout::Layout;
use crate::plan::Plan;
use chip::Chip;
use places::Places;
use rows::{Fault, Refusal};

impl Plan {
    /// Lays a circuit at its first places on a chip, over a machine of this ability; or the refusal of lowest rank at its
    /// first place.
    pub fn lay(ability: &Ability, layout: Layout) -> Result<Plan, Fault>
        ensures { MatchResult result
            (λ p. LaysPlan ability.now (layout_in layout.entry) p)
            (λ f. Turned (Fits ability.now (layout_in layout.entry)) f) }
    {
        let chip = Chip::new(layout.chip)?;
        let first = Places::lay(&chip, layout.qubits, layout.places)?;
        let circuit = Circuit::of(layout.qubits, layout.gates)?;
        if ability.width() < layout.chip.wires {
            return Err(Refusal::Narrow.at(ability.width() as usize));
        }
        if let Some(i) = circuit.unknown(ability) {
            return Err(Refusal::UnknownKind.at(i));
        }
        Ok(Plan {
            chip,
            first,
            circuit,
        })
    }

    /// The chip.
    pub fn chip(&self) -> &Chip
        ensures { result.now ≡ self.now.chip }
    {
        &self.chip
    }

    /// The first places.
    pub fn first(&self) -> &Places
        ensures { result.now ≡ self.now.first }
    {
        &self.first
    }

    /// The circuit.
    pub fn circuit(&self) -> &Circuit
        ensures { result.now ≡ self.now.circuit }
    {
        &self.circuit
    }
}
