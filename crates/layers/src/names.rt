// Names of wires.
ghost use Rattle.std.specs.Prelude.{◌≡◌, ◌<◌, take};
ghost use Rattle.std.specs.List.{range_with_len};
ghost use Rattle.layers.specs.Renaming.{Inside, Once, named, patched};

use cells::Width;
use rows::{Wire, counted, trade};

// An array of 64 and a width, not a Vec: no call of a layer may allocate.
/// A name for each wire, one to one.
#[derive(Clone, Copy)]
pub struct Names {
    table: [u8; 64],
    width: Width,
    ghost inside: { Inside (take width.n table) },
    ghost once: { Once (take width.n table) },
}

impl Names {
    /// Each wire under its own name.
    pub fn straight(width: Width) -> Names
        ensures width { result.width.n ≡ width.n }
        ensures names { take result.width.n result.table ≡ range_with_len 0 width.n }
    {
        let table = counted();
        Names { table, width }
    }

    /// The name of a wire, or 64, which is no machine's wire, where it has none.
    pub fn name(&self, a: Wire) -> Wire
        ensures { result.0 ≡ named self.now.width.n (take self.now.width.n self.now.table) a.0 }
    {
        if self.width.has(a) {
            Wire(self.table[usize::from(a.0)])
        } else {
            Wire(64)
        }
    }

    /// Two wires trade names; where one has no name, nothing changes.
    pub fn patch(&mut self, a: Wire, b: Wire)
        ensures width { self.new.width ≡ self.old.width }
        ensures names { take self.new.width.n self.new.table ≡ patched (take self.old.width.n self.old.table) a.0 b.0 }
    {
        if self.width.has(a) && self.width.has(b) {
            trade(&mut self.table, usize::from(a.0), usize::from(b.0));
        }
    }
}
