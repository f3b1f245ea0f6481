// The row of a step's line.
ghost use Rattle.std.specs.Prelude.{◌≡◌, MatchOption};
ghost use Rattle.rows.specs.declared.row.Step.{Step as StepRow};
ghost use Rattle.step_text.specs.StepLines.{WritesStep};

use crate::name::step_name;
use crate::operands::operands;
use lines::number_up_to;
use rows::Step;

/// The row whose line is `line`, without its newline. No line is that of two rows.
pub fn step_of(line: &[u8]) -> Option<Step>
    ensures reads { MatchOption result ((row : StepRow) → ¬ WritesStep line.now row) (λ row. WritesStep line.now row) }
    ensures only { (row other : StepRow) → WritesStep line.now row → WritesStep line.now other → row ≡ other }
{
    let (start, rest) = number_up_to(line, u32::MAX)?;
    let (kind, rest) = step_name(rest)?;
    let (first, second, k) = operands(kind, rest)?;
    Some(Step {
        kind: kind.code(),
        first,
        second,
        k,
        start,
    })
}
