// Exchange as three cnots.
ghost use Rattle.std.specs.Prelude.{◌≡◌};

use machine::{Machine, TrueCnot};
use rows::{Kind, Wire};

/// A machine with a true cnot that does each exchange as three cnots. It means what stands below.
#[derive(Drop)]
pub struct Thirds<M> {
    below: M,
}

impl<M: TrueCnot> Thirds<M> {
    /// Over this machine, in its state.
    pub fn new(below: M) -> Thirds<M>
        ensures { result.below ≡ below }
    {
        Thirds { below }
    }
}

impl<M: TrueCnot> Machine for Thirds<M> {
    ghost State = { M.Machine.State };

    ghost means = { λ t. M.Machine.means t.below };

    ghost acts = { M.Machine.acts };

    ghost lawful = { M.Machine.lawful };

    fn width(&self) -> u8 {
        self.below.width()
    }

    fn knows(&self, kind: Kind) -> bool {
        self.below.knows(kind)
    }

    fn gate(&mut self, kind: Kind, a: Wire, b: Wire, k: u8) {
        self.below.gate(kind, a, b, k);
    }

    fn exchange(&mut self, a: Wire, b: Wire) {
        self.below.true_cnot(a, b);
        self.below.gate(Kind::Cnot, a, b, 0);
        self.below.gate(Kind::Cnot, b, a, 0);
        self.below.gate(Kind::Cnot, a, b, 0);
    }

    fn read(&self, wire: Wire) -> u64 {
        self.below.read(wire)
    }
}

impl<M: TrueCnot> TrueCnot for Thirds<M> {
    fn true_cnot(&self, first: Wire, second: Wire) {
        self.below.true_cnot(first, second);
    }
}
