// The number of wires of a machine.
ghost use Rattle.std.specs.Prelude.{◌≡◌, ◌≤◌, min, nat_lt};
ghost use Rattle.rows.specs.Steps.{pair_below};

use rows::{Wire, two_below};

/// A number of wires, at most 64.
#[derive(Clone, Copy)]
pub struct Width {
    n: u8,
    ghost ok: { n ≤ 64 },
}

impl Width {
    /// More than 64 wires count as 64.
    pub fn new(wires: u8) -> Width
        ensures { result.n ≡ min wires 64 }
    {
        Width { n: wires.min(64) }
    }

    /// The number of wires.
    pub fn get(self) -> u8
        ensures value { result ≡ self.n }
        ensures bound { result ≤ 64 }
    {
        self.n
    }

    /// Whether the wire is below the width.
    pub fn has(self, wire: Wire) -> bool
        ensures { result ≡ nat_lt wire.0 self.n }
    {
        wire.0 < self.n
    }

    /// Whether these are two different wires below the width.
    pub fn has_two(self, a: Wire, b: Wire) -> bool
        ensures { result ≡ pair_below self.n a.0 b.0 }
    {
        two_below(self.n, a, b)
    }
}
