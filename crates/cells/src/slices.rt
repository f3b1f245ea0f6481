// Slices of cells under gates and exchanges. Only the cells of wires below the width are read or written.
ghost use Rattle.std.specs.Prelude.{◌≡◌, min, Bool, true, false, length, take, slice_index};
ghost use Rattle.rows.specs.Kinds.{double};
ghost use Rattle.rows.specs.Steps.{one, two, gate_on};
ghost use Rattle.machine.specs.Local.{local};
ghost use Rattle.cells.specs.Tables.{tabled, made_of};

use crate::rule::Local;
use crate::width::Width;
use rows::{Kind, Wire, trade};

/// The number of a wire, 0 where there is none or where the wire is not below the width.
fn number_at(numbers: &[u64], width: Width, wire: usize) -> u64
    ensures { result ≡ slice_index (take width.n numbers.now) wire }
{
    if wire < usize::from(width.get()) {
        numbers.get(wire).copied().unwrap_or(0)
    } else {
        0
    }
}

/// The number of wires: those below the width that have a cell.
pub fn count_wires<L: Local>(table: &[L::Cell], width: Width) -> u8
    ensures { (minus : Bool) → result ≡ (local L.rule).wide (tabled L.blank width.n table.now minus) }
{
    if table.len() < width.get() as usize {
        table.len() as u8
    } else {
        width.get()
    }
}

/// Writes each cell of the table: below the width from its number, or from 0 where there is none, and from 0 past it.
pub fn fill_cells<L: Local>(table: &mut [L::Cell], width: Width, numbers: &[u64])
    ensures { (minus : Bool) → tabled L.blank width.n table.new minus ≡ made_of (L.made width.n) (min width.n (length table.old)) numbers.now minus }
{
    for (i, cell) in table.iter_mut().enumerate() {
        *cell = L::make(width.get(), number_at(numbers, width, i));
    }
}

/// A gate on one wire, and the sign after it.
fn gate_one<L: Local>(
    table: &mut [L::Cell],
    minus: bool,
    width: Width,
    kind: Kind,
    a: Wire,
    k: u8,
) -> bool
    requires { double kind ≡ false }
    ensures { tabled L.blank width.n table.new result ≡ (local L.rule).gated (one kind k a.0) (tabled L.blank width.n table.old minus) }
{
    let i = a.0 as usize;
    if !L::known(kind) || !width.has(a) || table.len() <= i {
        return minus;
    }
    let made = L::single(kind, k, table[i]);
    table[i] = made.cell;
    minus != made.flips
}

/// A gate on two wires, and the sign after it.
fn gate_two<L: Local>(
    table: &mut [L::Cell],
    minus: bool,
    width: Width,
    kind: Kind,
    a: Wire,
    b: Wire,
    k: u8,
) -> bool
    requires { double kind ≡ true }
    ensures { tabled L.blank width.n table.new result ≡ (local L.rule).gated (two kind k a.0 b.0) (tabled L.blank width.n table.old minus) }
{
    let (i, j) = (a.0 as usize, b.0 as usize);
    if !L::known(kind) || !width.has_two(a, b) || table.len() <= i || table.len() <= j {
        return minus;
    }
    let made = L::double(kind, k, table[i], table[j]);
    table[i] = made.first;
    table[j] = made.second;
    minus != made.flips
}

/// One gate, and the sign after it. A kind on one qubit stands on `a` alone.
pub fn gate_cells<L: Local>(
    table: &mut [L::Cell],
    minus: bool,
    width: Width,
    kind: Kind,
    a: Wire,
    b: Wire,
    k: u8,
) -> bool
    ensures { tabled L.blank width.n table.new result ≡ (local L.rule).gated (gate_on kind k a.0 b.0) (tabled L.blank width.n table.old minus) }
{
    if kind.is_double() {
        gate_two::<L>(table, minus, width, kind, a, b, k)
    } else {
        gate_one::<L>(table, minus, width, kind, a, k)
    }
}

/// Two wires trade their cells.
pub fn trade_cells<L: Local>(table: &mut [L::Cell], width: Width, a: Wire, b: Wire)
    ensures { (minus : Bool) → tabled L.blank width.n table.new minus ≡ (local L.rule).traded a.0 b.0 (tabled L.blank width.n table.old minus) }
{
    if width.has_two(a, b) {
        trade(table, a.0 as usize, b.0 as usize);
    }
}

/// What a wire holds, as a number; 0 for a wire that is not below the width.
pub fn read_cell<L: Local>(table: &[L::Cell], width: Width, wire: Wire) -> u64
    ensures { (minus : Bool) → result ≡ (local L.rule).reads (tabled L.blank width.n table.now minus) wire.0 }
{
    let i = wire.0 as usize;
    if width.has(wire) && i < table.len() {
        L::shown(table[i])
    } else {
        0
    }
}
