// The part of the input before the line `steps`.
ghost use Rattle.std.specs.Prelude.{◌≡◌, codes, Decides};
ghost use Rattle.check_text.specs.Cutting.{Cut};

use text::first_line;

// Whether a line is `steps`.
pub(crate) fn is_steps(line: &[u8]) -> bool
    ensures { Decides result (line.now ≡ codes "steps") }
{
    line == b"steps".as_slice()
}

/// The circuit's text: all before the first line that is `steps`, or all of the input where no line is.
pub fn circuit_part(input: &[u8]) -> &[u8]
    ensures { Cut input.now result.now }
{
    // A loop, not `split`: the answer is how much comes before, and not the lines.
    let mut rest = input;
    while !rest.is_empty() {
        let (line, after) = first_line(rest);
        if is_steps(line) {
            return &input[..input.len() - rest.len()];
        }
        rest = after;
    }
    input
}
