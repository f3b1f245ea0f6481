// A table of cells, one a wire.
ghost use Rattle.std.specs.Prelude.{◌≡◌, ◌<◌, false, ◌&&◌, min};
ghost use Rattle.cells.specs.Tables.{made_of};
ghost use Rattle.cells.specs.Means.{means_of};

mod gates;

use crate::rule::{Signed, Tabled};
use crate::slices::fill_cells;
use crate::width::Width;
use rows::Wire;
use std::array;
use std::marker::PhantomData;

// An array of 64 and a width, not a Vec: no call of a machine may allocate, and tables are copied.
/// A cell a wire, and whether the sign is minus, under the gates of the rule `L`.
#[derive_where(Clone, Copy; C)]
pub struct Table<L, C> {
    cells: [C; 64],
    width: Width,
    minus: bool,
    rule: PhantomData<L>,
}

impl<L: Tabled<Cell = C>, C: Copy> Table<L, C> {
    /// The cells of the numbers, and a sign, which counts if the rule is signed. Where there is no number, or the wire is not below the width, it is the cell of 0.
    fn filled(width: Width, numbers: &[u64], minus: bool) -> Self
        ensures made { means_of L.signed L.blank result ≡ made_of (L.made width.n) width.n numbers.now (L.signed && minus) }
        ensures promise { L.Promise }
    {
        L::promise(width);
        let mut cells = [L::make(width.get(), 0); 64];
        fill_cells::<L>(&mut cells, width, numbers);
        Table {
            cells,
            width,
            minus,
            rule: PhantomData,
        }
    }

    /// The cells of the numbers, from 0 where there is none, and plus. More than 64 wires count as 64.
    pub fn new(width: u8, numbers: &[u64]) -> Self
        ensures made { means_of L.signed L.blank result ≡ made_of (L.made (min width 64)) (min width 64) numbers.now false }
        ensures promise { L.Promise }
    {
        Table::filled(Width::new(width), numbers, false)
    }

    /// The cells with which wires begin, and plus. More than 64 wires count as 64.
    pub fn fresh(width: u8) -> Self
        ensures made { means_of L.signed L.blank result ≡ L.fresh (min width 64) }
        ensures promise { L.Promise }
        ensures fresh { L.FreshPromise (min width 64) (means_of L.signed L.blank result) }
    {
        let width = Width::new(width);
        L::promise(width);
        let cells = array::from_fn(
            |i| -> C
                requires { i < 64 }
                ensures { result ≡ (L.fresh width.n).cell i }
            { L::begin(width, Wire(i as u8)) },
        );
        Table {
            cells,
            width,
            minus: false,
            rule: PhantomData,
        }
    }
}

impl<L: Signed<Cell = C>, C: Copy> Table<L, C> {
    /// The cells of the numbers, from 0 where there is none, and this sign. More than 64 wires count as 64.
    pub fn signed(width: u8, numbers: &[u64], minus: bool) -> Self
        ensures made { means_of L.signed L.blank result ≡ made_of (L.made (min width 64)) (min width 64) numbers.now minus }
        ensures promise { L.Promise }
    {
        Table::filled(Width::new(width), numbers, minus)
    }

    /// Whether the sign is minus.
    pub fn is_minus(&self) -> bool
        ensures { result ≡ (means_of L.signed L.blank self.now).minus }
    {
        self.minus
    }
}
