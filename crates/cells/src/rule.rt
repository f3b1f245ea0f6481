// What one wire holds.
ghost use Rattle.std.specs.Prelude.{◌≡◌, ℕ, Bool, true, false};
ghost use Rattle.machine.specs.Machines.{HasTrueCnot};
ghost use Rattle.machine.specs.Local.{Rule, Cells, local};
ghost use Rattle.cells.specs.Tables.{Begun, Plain};

use crate::width::Width;
use machine::{Double, Single};
use rows::{Kind, Wire};

/// A rule by which gates change the cells of their own wires.
pub trait Local {
    /// What one wire holds.
    type Cell: Copy;

    ghost rule: { Rule Self.Cell };

    // the cell of a number, in a machine of so many wires
    ghost made: { ℕ → ℕ → Self.Cell };

    ghost blank: { Self.Cell };

    /// The cell of a number, in a machine of so many wires; bits that no reading can answer are dropped.
    fn make(width: u8, number: u64) -> Self::Cell
        ensures { result ≡ made width number };

    /// The cell as a number.
    fn shown(cell: Self::Cell) -> u64
        ensures { result ≡ rule.shown cell };

    /// Whether gates of the kind do anything.
    fn known(kind: Kind) -> bool
        ensures { result ≡ rule.known kind };

    /// What a gate on one wire makes of its cell.
    fn single(kind: Kind, k: u8, cell: Self::Cell) -> Single<Self::Cell>
        ensures { result ≡ rule.single kind k cell };

    /// What a gate on two wires makes of their cells.
    fn double(kind: Kind, k: u8, first: Self::Cell, second: Self::Cell) -> Double<Self::Cell>
        ensures { result ≡ rule.double kind k first second };

    // the number 0 makes the blank cell
    ghost zero: { (n : ℕ) → made n 0 ≡ blank };
}

/// A rule with the state in which its wires begin, and with what is promised of both.
pub trait Tabled: Local {
    // whether states have a sign of their own; else each is plus
    ghost signed: { Bool };

    // the state with which so many wires begin
    ghost fresh: { ℕ → Cells Self.Cell };

    // what is promised of the rule
    ghost Promise: { Type 0 };

    // what is promised of the state with which so many wires begin
    ghost FreshPromise: { ℕ → Cells Self.Cell → Type 0 };

    /// The cell with which a wire begins, in a machine of so many wires.
    fn begin(width: Width, wire: Wire) -> Self::Cell
        ensures { result ≡ (fresh width.n).cell wire.0 };

    /// Says what is promised of the rule: it is called for what it promises, and does nothing.
    fn promise(width: Width)
        ensures always { Promise }
        ensures begun { FreshPromise width.n (fresh width.n) };

    ghost begun: { (n : ℕ) → Begun Self.blank n (fresh n) };

    // if states have no sign of their own, no gate flips it
    ghost plain: { signed ≡ false → Plain Self.rule };
}

/// A rule by which gates may flip the sign.
pub trait Signed: Tabled {
    // it has a sign
    ghost is: { Self.signed ≡ true };
}

/// A rule by which three cnots are the exchange.
pub trait TrueLocal: Tabled {
    /// Says so: it is called for what it promises, and does nothing.
    fn cross()
        ensures { HasTrueCnot (local Self.rule) };
}
