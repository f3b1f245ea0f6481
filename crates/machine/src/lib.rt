//! What runs under a bench: the interface of machines and its laws, and the notion of a local machine.

#![tactic(auto)]

ghost use Rattle.std.specs.Prelude.{◌≡◌, true};
ghost use Rattle.rows.specs.Steps.{gate_on};
ghost use Rattle.machine.specs.Machines.{Acts, Lawful, Crosses};

mod local;

pub use local::{Double, Single};
use rows::{Kind, Wire};

/// A row of wires under gates and exchanges. What its calls do is said by its state, the value it means.
pub trait Machine {
    ghost State: { Type 0 };

    // the state that the machine means
    ghost means: { Self → State };

    ghost acts: { Acts State };

    /// The number of wires, at most 64.
    fn width(&self) -> u8
        ensures { result ≡ acts.wide (means self.now) };

    /// Whether gates of the kind do anything.
    fn knows(&self, kind: Kind) -> bool
        ensures { result ≡ acts.knows (means self.now) kind };

    // Kind, wires and k, not a struct of them: these five calls are the interface that the project sets.
    /// One gate. A kind on one qubit stands on `a` alone and has no use for `b`.
    fn gate(&mut self, kind: Kind, a: Wire, b: Wire, k: u8)
        ensures { means self.new ≡ acts.gated (gate_on kind k a.0 b.0) (means self.old) };

    /// The two wires trade what they hold.
    fn exchange(&mut self, a: Wire, b: Wire)
        ensures { means self.new ≡ acts.traded a.0 b.0 (means self.old) };

    /// What a wire holds, as a number; 0 for a wire that is not below the width.
    fn read(&self, wire: Wire) -> u64
        ensures { result ≡ acts.reads (means self.now) wire.0 };

    ghost lawful: { Lawful acts };
}

/// A machine that knows cnot, and whose exchange is three cnots.
pub trait TrueCnot: Machine {
    /// Says so of the present state: it is called for what it promises, and does nothing.
    fn true_cnot(&self, a: Wire, b: Wire)
        ensures knows { Self.Machine.acts.knows (Self.Machine.means self.now) Kind.Cnot ≡ true }
        ensures crosses { Crosses Self.Machine.acts a.0 b.0 (Self.Machine.means self.now) };
}
