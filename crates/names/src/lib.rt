//! How the line of a gate begins: the name of its kind, a space and `q`.

#![tactic(auto)]

ghost use Rattle.std.specs.Prelude.{◌≡◌, ℕ, List, ◌++◌, codes, MatchOption};
ghost use Rattle.rows.specs.declared.kind.Kind.{Kind};
ghost use Rattle.rows.specs.Kinds.{name};

use rows::Kind;

/// The kind whose name `line` begins with, and what comes after the `q` of its first qubit.
pub fn opening(line: &[u8]) -> Option<(Kind, &[u8])>
    ensures { MatchOption result ((κ : Kind) (rest : List ℕ) → ¬ (line.now ≡ name κ ++ (codes " q" ++ rest))) (λ x. line.now ≡ name x.0 ++ (codes " q" ++ x.1.now)) }
{
    // Slice patterns, and so the names once more: the fixed bytes of a circuit's line are matched by them, a rule of this project.
    match line {
        [b'x', b' ', b'q', rest @ ..] => Some((Kind::X, rest)),
        [b'y', b' ', b'q', rest @ ..] => Some((Kind::Y, rest)),
        [b'z', b' ', b'q', rest @ ..] => Some((Kind::Z, rest)),
        [b'h', b' ', b'q', rest @ ..] => Some((Kind::H, rest)),
        [b's', b' ', b'q', rest @ ..] => Some((Kind::S, rest)),
        [b's', b'd', b'a', b'g', b' ', b'q', rest @ ..] => Some((Kind::Sdag, rest)),
        [b't', b' ', b'q', rest @ ..] => Some((Kind::T, rest)),
        [b't', b'd', b'a', b'g', b' ', b'q', rest @ ..] => Some((Kind::Tdag, rest)),
        [b'c', b'n', b'o', b't', b' ', b'q', rest @ ..] => Some((Kind::Cnot, rest)),
        [b'c', b'z', b' ', b'q', rest @ ..] => Some((Kind::Cz, rest)),
        [b'c', b'r', b'k', b' ', b'q', rest @ ..] => Some((Kind::Crk, rest)),
        _ => None,
    }
}
