// What comes after the first qubit of a gate on two qubits.
ghost use Rattle.std.specs.Prelude.{◌≡◌, ℕ, ◌<◌, ◌≤◌, true, List, ◌++◌, codes, decimal, MatchOption};
ghost use Rattle.rows.specs.Kinds.{k_suits};
ghost use Rattle.lines.specs.Grammar.{ending};

use crate::number::{LARGEST, last_number, number_up_to};
use rows::Kind;

// What comes after a comma and `q`.
fn after_comma_q(s: &[u8]) -> Option<&[u8]>
    ensures { MatchOption result ((rest : List ℕ) → ¬ (s.now ≡ codes ",q" ++ rest)) (λ rest. s.now ≡ codes ",q" ++ rest.now) }
{
    match s {
        [b',', b'q', rest @ ..] => Some(rest),
        _ => None,
    }
}

// What comes after a comma.
fn after_comma(s: &[u8]) -> Option<&[u8]>
    ensures { MatchOption result ((rest : List ℕ) → ¬ (s.now ≡ codes "," ++ rest)) (λ rest. s.now ≡ codes "," ++ rest.now) }
{
    match s {
        [b',', rest @ ..] => Some(rest),
        _ => None,
    }
}

// The k of a crk line, 1 to 31, after its comma.
fn turn(s: &[u8]) -> Option<u8>
    ensures { MatchOption result ((k : ℕ) → 1 ≤ k → k ≤ 31 → ¬ (s.now ≡ codes "," ++ decimal k)) (λ k. (1 ≤ k) × (k ≤ 31) × (s.now ≡ codes "," ++ decimal k)) }
{
    let rest = after_comma(s)?;
    let k = last_number(rest)?;
    if k >= 1 && k <= 31 {
        Some(k as u8)
    } else {
        None
    }
}

// The k that ends the line of a gate on two qubits: 0, and nothing is written, unless the kind is crk.
fn angle(kind: Kind, s: &[u8]) -> Option<u8>
    ensures { MatchOption result ((k : ℕ) → k_suits kind k ≡ true → ¬ (s.now ≡ ending kind k)) (λ k. (k_suits kind k ≡ true) × (s.now ≡ ending kind k)) }
{
    if kind == Kind::Crk {
        turn(s)
    } else if s.is_empty() {
        Some(0)
    } else {
        None
    }
}

// The second qubit and k of a gate on two qubits.
pub(crate) fn second(kind: Kind, s: &[u8]) -> Option<(u32, u8)>
    ensures { MatchOption result
        ((b k : ℕ) → b < 10000 → k_suits kind k ≡ true → ¬ (s.now ≡ codes ",q" ++ (decimal b ++ ending kind k)))
        (λ x. (x.0 < 10000) × (k_suits kind x.1 ≡ true) × (s.now ≡ codes ",q" ++ (decimal x.0 ++ ending kind x.1))) }
{
    let rest = after_comma_q(s)?;
    let (qubit, rest) = number_up_to(rest, LARGEST)?;
    let k = angle(kind, rest)?;
    Some((qubit, k))
}
