// Numbers at the front of a text: decimal, with no leading zero, up to a limit.
ghost use Rattle.std.specs.Prelude.{◌≡◌, ℕ, ◌<◌, ◌≤◌, List, length, decimal, MatchBool, MatchOption, slice_index};
ghost use Rattle.std.specs.List.{AllByRecursion};
ghost use Rattle.std.specs.Str.Parse.{digits_value};
ghost use Rattle.lines.specs.Number.{Digit, Begins};

use crate::token::{Token, front};

// The largest number in a circuit's text: four digits.
pub(crate) const LARGEST: u32 = 9999;

// The number that the digits write, if it is at most `limit`.
fn value_of(digits: &[u8], limit: u32) -> Option<u32>
    requires { AllByRecursion Digit digits.now }
    ensures { MatchOption result (limit < digits_value 10 digits.now) (λ v. (v ≤ limit) × (v ≡ digits_value 10 digits.now)) }
{
    // A loop, not the library's `from_utf8` and `parse`: with these the reading of steps took half as much time again.
    let mut v = 0u64;
    for b in digits {
        v = v * 10 + (*b - b'0') as u64;
        if v > limit as u64 {
            return None;
        }
    }
    Some(v as u32)
}

// Whether there are two digits or more, and the first is 0.
fn has_leading_zero(digits: &[u8]) -> bool
    ensures { MatchBool result ((1 < length digits.now) × (slice_index digits.now 0 ≡ 48)) (slice_index digits.now 0 ≡ 48 → length digits.now ≤ 1) }
{
    matches!(digits, [b'0', _, ..])
}

/// The number at the front of `s`, if it is at most `limit`, and what comes after it.
pub fn number_up_to(s: &[u8], limit: u32) -> Option<(u32, &[u8])>
    ensures { MatchOption result ((v : ℕ) (rest : List ℕ) → ¬ Begins limit s.now v rest) (λ x. Begins limit s.now x.0 x.1.now) }
{
    let (token, rest) = front(s)?;
    let Token::Number(digits) = token else {
        return None;
    };
    if has_leading_zero(digits) {
        return None;
    }
    let v = value_of(digits, limit)?;
    Some((v, rest))
}

// The number of a circuit's text that is the whole of `s`.
pub(crate) fn last_number(s: &[u8]) -> Option<u32>
    ensures { MatchOption result ((v : ℕ) → v < 10000 → ¬ (s.now ≡ decimal v)) (λ v. (v < 10000) × (s.now ≡ decimal v)) }
{
    let (v, rest) = number_up_to(s, LARGEST)?;
    if rest.is_empty() { Some(v) } else { None }
}
