// The name of a step's kind.
ghost use Rattle.std.specs.Prelude.{◌≡◌, ℕ, List, MatchOption};
ghost use Rattle.rows.specs.StepKinds.{step_code, step_name};
ghost use Rattle.step_text.specs.StepLines.{named};

use lines::{Token, front};
use rows::{Kind, StepKind};

// Matched, not looked up in the list of kinds: with that, by value or by reference, lines of exchanges took more than 1.5 times as long to read.
// The kind with this name.
fn kind_named(word: &[u8]) -> Option<StepKind>
    ensures { MatchOption result ((κ : StepKind) → ¬ (word.now ≡ step_name (step_code κ))) (λ κ. word.now ≡ step_name (step_code κ)) }
{
    let kind = match word {
        [b'x'] => Kind::X,
        [b'y'] => Kind::Y,
        [b'z'] => Kind::Z,
        [b'h'] => Kind::H,
        [b's'] => Kind::S,
        [b's', b'd', b'a', b'g'] => Kind::Sdag,
        [b't'] => Kind::T,
        [b't', b'd', b'a', b'g'] => Kind::Tdag,
        [b'c', b'n', b'o', b't'] => Kind::Cnot,
        [b'c', b'z'] => Kind::Cz,
        [b'c', b'r', b'k'] => Kind::Crk,
        [b's', b'w', b'a', b'p'] => return Some(StepKind::Exchange),
        _ => return None,
    };
    Some(StepKind::Gate(kind))
}

// The kind whose name stands between two spaces at the front of `s`, and what comes after them.
pub(crate) fn step_name(s: &[u8]) -> Option<(StepKind, &[u8])>
    ensures { MatchOption result ((κ : StepKind) (rest : List ℕ) → ¬ (s.now ≡ named (step_code κ) rest)) (λ x. s.now ≡ named (step_code x.0) x.1.now) }
{
    let text = s.strip_prefix(b" ")?;
    let (token, spaced) = front(text)?;
    let Token::Name(word) = token else {
        return None;
    };
    let kind = kind_named(word)?;
    let rest = spaced.strip_prefix(b" ")?;
    Some((kind, rest))
}
