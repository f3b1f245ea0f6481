// The tokens of a line. A token borrows the bytes that it is made of.
ghost use Rattle.std.specs.Prelude.{◌≡◌, ℕ, ◌<◌, ◌≤◌, [], length, MatchOption, slice_index};
ghost use Rattle.std.specs.Int.{IsInRange};
ghost use Rattle.lines.specs.Tokens.{Longest, Fronts};

/// A name, a number, a comment without its `#`, or a single other byte.
#[derive(Clone, Copy)]
pub enum Token<'a> {
    Name(&'a [u8]),
    Number(&'a [u8]),
    Comment(&'a [u8]),
    Mark(u8),
}

// How many bytes at the front are from `low` to `high`.
fn run(s: &[u8], low: u8, high: u8) -> usize
    ensures within { result ≤ length s.now }
    ensures all { (i : ℕ) → i < result → IsInRange low high (slice_index s.now i) }
    ensures stops { result < length s.now → ¬ IsInRange low high (slice_index s.now result) }
{
    s.iter()
        .position(|b| *b < low || *b > high)
        .unwrap_or(s.len())
}

// The longest front of bytes from `low` to `high`, and what comes after it, if the first byte is one of them.
fn longest(s: &[u8], low: u8, high: u8) -> Option<(&[u8], &[u8])>
    requires { 0 < length s.now }
    ensures { MatchOption result (¬ IsInRange low high (slice_index s.now 0)) (λ x. Longest (IsInRange low high) s.now x.0.now x.1.now) }
{
    let n = run(s, low, high);
    if n > 0 { Some(s.split_at(n)) } else { None }
}

/// The token at the front of `s`, and what comes after it; none where `s` is empty.
pub fn front(s: &[u8]) -> Option<(Token<'_>, &[u8])>
    ensures { MatchOption result (s.now ≡ []) (λ x. Fronts s.now x.0 x.1.now) }
{
    let [first, rest @ ..] = s else {
        return None;
    };
    if *first == b'#' {
        return Some((Token::Comment(rest), &s[s.len()..]));
    }
    if let Some((number, after)) = longest(s, b'0', b'9') {
        return Some((Token::Number(number), after));
    }
    if let Some((name, after)) = longest(s, b'a', b'z') {
        return Some((Token::Name(name), after));
    }
    Some((Token::Mark(*first), rest))
}
