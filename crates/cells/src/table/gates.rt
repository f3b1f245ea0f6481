// Tables under gates and exchanges. Only the cells of wires below the width are read or written.
ghost use Rattle.machine.specs.Local.{Cells, local};
ghost use Rattle.machine.proofs.LocalLaws.{local_lawful};
ghost use Rattle.cells.specs.Means.{means_of};

use crate::rule::{Tabled, TrueLocal};
use crate::slices::{count_wires, gate_cells, read_cell, trade_cells};
use crate::table::Table;
use machine::{Machine, TrueCnot};
use rows::{Kind, Wire};

impl<L: Tabled<Cell = C>, C: Copy> Machine for Table<L, C> {
    ghost State = { Cells C };

    ghost means = { means_of L.signed L.blank };

    ghost acts = { local L.rule };

    ghost lawful = { local_lawful L.rule };

    fn width(&self) -> u8 {
        count_wires::<L>(&self.cells, self.width)
    }

    fn knows(&self, kind: Kind) -> bool {
        L::known(kind)
    }

    fn gate(&mut self, kind: Kind, a: Wire, b: Wire, k: u8) {
        self.minus = gate_cells::<L>(&mut self.cells, self.minus, self.width, kind, a, b, k);
    }

    fn exchange(&mut self, a: Wire, b: Wire) {
        trade_cells::<L>(&mut self.cells, self.width, a, b);
    }

    fn read(&self, wire: Wire) -> u64 {
        read_cell::<L>(&self.cells, self.width, wire)
    }
}

impl<L: TrueLocal<Cell = C>, C: Copy> TrueCnot for Table<L, C> {
    fn true_cnot(&self, _a: Wire, _b: Wire) {
        L::cross();
    }
}
