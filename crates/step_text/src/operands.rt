// The wires of a step's line, and its k.
ghost use Rattle.std.specs.Prelude.{ℕ, List, MatchOption};
ghost use Rattle.rows.specs.StepKinds.{step_code};
ghost use Rattle.lines.specs.Number.{Begins};
ghost use Rattle.step_text.specs.Parts.{Follows, Operands};

use lines::number_up_to;
use rows::{StepKind, Wire};

// The number at the front of `s`, if it is a byte, and what comes after it.
fn byte(s: &[u8]) -> Option<(u8, &[u8])>
    ensures { MatchOption result ((v : ℕ) (rest : List ℕ) → ¬ Begins 255 s.now v rest) (λ x. Begins 255 s.now x.0 x.1.now) }
{
    let (v, rest) = number_up_to(s, 255)?;
    Some((v as u8, rest))
}

// A bool, not an Option of what is written: the grammar says `part` of it, and what is read is the number in either case.
// The byte after a comma at the front of `s`, or 0 where none is written, and what comes after it.
fn part(written: bool, s: &[u8]) -> Option<(u8, &[u8])>
    ensures { MatchOption result ((v : ℕ) (rest : List ℕ) → ¬ Follows written s.now v rest) (λ x. Follows written s.now x.0 x.1.now) }
{
    if written {
        byte(s.strip_prefix(b",")?)
    } else {
        Some((0, s))
    }
}

// The wires and k of a step of this kind: the second wire is 0 for a kind on one, and k is 0 for a kind without.
pub(crate) fn operands(kind: StepKind, s: &[u8]) -> Option<(Wire, Wire, u8)>
    ensures { MatchOption result ((a b k : ℕ) → ¬ Operands (step_code kind) s.now a b k) (λ x. Operands (step_code kind) s.now x.0.0 x.1.0 x.2) }
{
    let (first, rest) = byte(s)?;
    let (second, rest) = part(kind.is_double(), rest)?;
    let (k, rest) = part(kind.has_k(), rest)?;
    if rest.is_empty() {
        Some((Wire(first), Wire(second), k))
    } else {
        None
    }
}
