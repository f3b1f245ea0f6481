// Wires under other names.
ghost use Rattle.std.specs.Prelude.{◌≡◌};
ghost use Rattle.std.specs.List.{range_with_len};
ghost use Rattle.layers.specs.Renaming.{patched};
ghost use Rattle.layers.specs.Panels.{Panelled, panel, renaming, name as wire_name};
ghost use Rattle.layers.specs.PanelLaws.{panel_lawful};

use crate::names::Names;
use cells::Width;
use machine::Machine;
use rows::{Kind, Wire};

/// A machine whose wires go by other names, one to one and as many as the wires.
#[derive(Drop)]
pub struct Panel<M: Machine> {
    names: Names,
    below: M,
    ghost as_many: { names.width.n ≡ M.Machine.acts.wide (M.Machine.means below) },
}

impl<M: Machine> Panel<M> {
    /// Each wire under its own name, over this machine in its state.
    pub fn new(below: M) -> Panel<M>
        ensures names { (renaming result.names).list ≡ range_with_len 0 (M.Machine.acts.wide (M.Machine.means below)) }
        ensures below { result.below ≡ below }
    {
        let width = below.width();
        Panel {
            names: Names::straight(Width::new(width)),
            below,
        }
    }

    /// Two wires trade names, and nothing changes below. For a wire that has no name, none are traded.
    pub fn patch(&mut self, a: Wire, b: Wire)
        ensures names { (renaming self.new.names).list ≡ patched (renaming self.old.names).list a.0 b.0 }
        ensures below { self.new.below ≡ self.old.below }
    {
        self.names.patch(a, b);
    }

    /// The wire below that goes by this name.
    fn name(&self, a: Wire) -> Wire
        ensures { result.0 ≡ wire_name M.Machine.acts (record { names = renaming self.now.names; below = M.Machine.means self.now.below }) a.0 }
    {
        self.names.name(a)
    }
}

impl<M: Machine> Machine for Panel<M> {
    ghost State = { Panelled M.Machine.State };

    ghost means = { λ p. record { names = renaming p.names; below = M.Machine.means p.below } };

    ghost acts = { panel M.Machine.acts };

    ghost lawful = { panel_lawful M.Machine.acts M.Machine.lawful };

    fn width(&self) -> u8 {
        self.below.width()
    }

    fn knows(&self, kind: Kind) -> bool {
        self.below.knows(kind)
    }

    fn gate(&mut self, kind: Kind, a: Wire, b: Wire, k: u8) {
        let (x, y) = (self.name(a), self.name(b));
        self.below.gate(kind, x, y, k);
    }

    fn exchange(&mut self, a: Wire, b: Wire) {
        let (x, y) = (self.name(a), self.name(b));
        self.below.exchange(x, y);
    }

    fn read(&self, wire: Wire) -> u64 {
        self.below.read(self.name(wire))
    }
}
