// Which wires are coupled.
ghost use Rattle.std.specs.Prelude.{◌≡◌, ℕ, ◌<◌, ◌&&◌, ◌||◌, ◌==◌, false};
ghost use Rattle.chip.specs.Tables.{flag_at};

use rows::Wire;

/// For every two wires, whether they are coupled.
#[derive(Clone, Copy)]
pub(crate) struct Couplings {
    pub rows: [[bool; 64]; 64],
}

impl Couplings {
    /// No wires are coupled.
    pub fn none() -> Couplings
        ensures { (x y : ℕ) → flag_at result.rows x y ≡ false }
    {
        Couplings {
            rows: [[false; 64]; 64],
        }
    }

    /// Couples wire `a` with wire `b`.
    fn mark(&mut self, a: usize, b: usize)
        requires { (a < 64) × (b < 64) }
        ensures { (x y : ℕ) → flag_at self.new.rows x y ≡ (flag_at self.old.rows x y || (a == x && b == y)) }
    {
        let row = &mut self.rows[a];
        row[b] = true;
    }

    /// Couples two wires, both ways.
    pub fn couple(&mut self, a: Wire, b: Wire)
        requires { (a.0 < 64) × (b.0 < 64) }
        ensures { (x y : ℕ) → flag_at self.new.rows x y ≡ (flag_at self.old.rows x y || ((a.0 == x && b.0 == y) || (a.0 == y && b.0 == x))) }
    {
        let (a, b) = (a.0 as usize, b.0 as usize);
        self.mark(a, b);
        self.mark(b, a);
    }
}
