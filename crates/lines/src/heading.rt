// The line that says how many qubits a circuit has.
ghost use Rattle.std.specs.Prelude.{◌≡◌, ℕ, List, ◌++◌, codes, MatchOption};
ghost use Rattle.lines.specs.Grammar.{Heads};

use crate::number::last_number;

// What comes after `qubits` and a space.
fn after_qubits(line: &[u8]) -> Option<&[u8]>
    ensures { MatchOption result ((rest : List ℕ) → ¬ (line.now ≡ codes "qubits " ++ rest)) (λ rest. line.now ≡ codes "qubits " ++ rest.now) }
{
    match line {
        [b'q', b'u', b'b', b'i', b't', b's', b' ', rest @ ..] => Some(rest),
        _ => None,
    }
}

/// The number of qubits that `line` gives the circuit, if it gives one.
pub fn qubits_of(line: &[u8]) -> Option<u8>
    ensures { MatchOption result ((n : ℕ) → ¬ Heads line.now n) (λ n. Heads line.now n) }
{
    let rest = after_qubits(line)?;
    let n = last_number(rest)?;
    if n >= 1 && n <= 64 {
        Some(n as u8)
    } else {
        None
    }
}
