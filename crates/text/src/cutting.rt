// The lines of a text.
ghost use Rattle.std.specs.Prelude.{ℕ, ◌<◌, ◌∷◌, ◌≡◌, length};
ghost use Rattle.text.specs.Reading.{lines};
ghost use Rattle.text.specs.Cutting.{FirstLine};

/// The first line of a text, without its byte 10, and what comes after it.
pub fn first_line(text: &[u8]) -> (&[u8], &[u8])
    ensures cut { FirstLine text.now result.0.now result.1.now }
    ensures lines { 0 < length text.now → lines text.now ≡ result.0.now ∷ lines result.1.now }
    ensures shorter { 0 < length text.now → length result.1.now < length text.now }
{
    match text.iter().position(|b| *b == b'\n') {
        Some(n) => (&text[..n], &text[n + 1..]),
        None => (text, &[]),
    }
}
