// Numbers of a chip: degrees and the largest distance. Wires go by their numbers here, as they come from ranges.
ghost use Rattle.std.specs.Prelude.{◌≡◌, ℕ, ◌<◌};
ghost use Rattle.chip.specs.Chips.{chart_of};
ghost use Rattle.chip_text.specs.Report.{largest, Far, degree as degree_of, diameter as diameter_of};
ghost use Rattle.chip_text.specs.Within.{within, longest};

use chip::Chip;
use rows::Wire;

/// With how many wires wire `a` is coupled.
pub(crate) fn degree(chip: &Chip, a: u8) -> u8
    ensures { result ≡ degree_of (chart_of chip.now) a }
{
    (0..chip.wires())
        .filter(|b| chip.coupled(Wire(a), Wire(*b)))
        .count() as u8
}

/// The distance of two wires; 0 where one is not a wire of the chip.
pub(crate) fn distance(chip: &Chip, a: u8, b: u8) -> u8
    ensures { (far : ℕ → ℕ → ℕ) → Far (chart_of chip.now) far → result ≡ within (chart_of chip.now).wires far a b }
{
    chip.distance(Wire(a), Wire(b)).unwrap_or(0)
}

/// The largest distance of wire `a` from another; 0 where it is not a wire of the chip.
fn farthest(chip: &Chip, a: u8) -> u8
    ensures { (far : ℕ → ℕ → ℕ) → Far (chart_of chip.now) far → result ≡ longest (chart_of chip.now).wires far a }
{
    (0..chip.wires()).fold(0, |most, b| most.max(distance(chip, a, b)))
}

/// The largest distance of two wires.
pub(crate) fn diameter(chip: &Chip) -> u8
    ensures { (far : ℕ → ℕ → ℕ) → Far (chart_of chip.now) far → result ≡ diameter_of (chart_of chip.now).wires far }
{
    (0..chip.wires()).fold(0, |most, a| most.max(farthest(chip, a)))
}
