// The gate that a line writes.
ghost use Rattle.std.specs.Option.{MatchOption};
ghost use Rattle.rows.specs.Steps.{Gate};
ghost use Rattle.lines.specs.Grammar.{Writes, gate_in};

use crate::number::{LARGEST, number_up_to};
use crate::operands::second;
use crate::written::Written;
use names::opening;

// The gate that `line` writes.
pub(crate) fn parse_gate(line: &[u8]) -> Option<Written>
    ensures { MatchOption result ((g : Gate) → ¬ Writes line.now g) (λ w. Writes line.now (gate_in w)) }
{
    let (kind, rest) = opening(line)?;
    let (first, rest) = number_up_to(rest, LARGEST)?;
    if kind.is_double() {
        let (other, k) = second(kind, rest)?;
        Some(Written::Two(kind, k, first, other))
    } else if rest.is_empty() {
        Some(Written::One(kind, 0, first))
    } else {
        None
    }
}
