// Layers against the machine below.
use crate::reading::reads;
use bits::Bits;
use depth::Depth;
use layers::{Panel, Thirds};
use machine::{Machine, TrueCnot};
use pauli::Pauli;
use rows::{Kind, Wire};

#[test]
fn thirds_over_bits(rt: HostRuntime) {
    for (a, b) in [(0u64, 0u64), (0, 1), (1, 0), (1, 1)] {
        let mut direct = Bits::new(3, &[a, b, 1]);
        let mut thirds = Thirds::new(Bits::new(3, &[a, b, 1]));
        direct.exchange(Wire(0), Wire(1));
        thirds.exchange(Wire(0), Wire(1));
        assert!(rt; reads(&direct, [b, a, 1, 0]) && reads(&thirds, [b, a, 1, 0]));
        thirds.exchange(Wire(2), Wire(2));
        thirds.exchange(Wire(2), Wire(3));
        assert!(rt; reads(&thirds, [b, a, 1, 0]));
    }
    let t = Thirds::new(Thirds::new(Bits::fresh(200)));
    t.true_cnot(Wire(0), Wire(1));
    assert!(rt; t.width() == 64 && t.knows(Kind::X) && !t.knows(Kind::H));
}

#[test]
fn panel_over_thirds_over_pauli(rt: HostRuntime) {
    let mut pile = Panel::new(Thirds::new(Pauli::new(3, &[1, 2, 3])));
    assert!(rt; pile.width() == 3 && pile.knows(Kind::Cz) && !pile.knows(Kind::T));
    assert!(rt; reads(&pile, [1, 2, 3, 0]));
    // wire 0 goes by 2, and wire 2 by 0
    pile.patch(Wire(0), Wire(2));
    assert!(rt; reads(&pile, [3, 2, 1, 0]));
    // below, h on wire 2 leaves Y, and h on wire 0 makes Z of X
    pile.gate(Kind::H, Wire(0), Wire(0), 0);
    pile.gate(Kind::H, Wire(2), Wire(0), 0);
    assert!(rt; reads(&pile, [3, 2, 2, 0]));
    // below, cnot from wire 2 to wire 1 makes (X, Y) of (Y, Z)
    pile.gate(Kind::Cnot, Wire(0), Wire(1), 0);
    assert!(rt; reads(&pile, [1, 3, 2, 0]));
    pile.exchange(Wire(0), Wire(1));
    assert!(rt; reads(&pile, [3, 1, 2, 0]));
    pile.patch(Wire(0), Wire(2));
    assert!(rt; reads(&pile, [2, 1, 3, 0]));
}

#[test]
fn panel_over_panel_over_depth(rt: HostRuntime) {
    let mut inner = Panel::new(Depth::new(3, &[10, 20, 30]));
    inner.patch(Wire(0), Wire(1));
    let mut pile = Panel::new(inner);
    assert!(rt; reads(&pile, [20, 10, 30, 0]));
    pile.patch(Wire(1), Wire(2));
    assert!(rt; reads(&pile, [20, 30, 10, 0]));
    pile.gate(Kind::H, Wire(1), Wire(0), 0);
    assert!(rt; reads(&pile, [20, 31, 10, 0]));
    pile.gate(Kind::Cz, Wire(0), Wire(2), 0);
    assert!(rt; reads(&pile, [21, 31, 21, 0]));
    pile.exchange(Wire(1), Wire(2));
    assert!(rt; reads(&pile, [21, 21, 31, 0]) && pile.width() == 3);
}

#[test]
fn patch_has_no_other_wires(rt: HostRuntime) {
    let mut p = Panel::new(Bits::new(2, &[1, 0]));
    p.patch(Wire(0), Wire(2));
    p.patch(Wire(2), Wire(1));
    p.patch(Wire(1), Wire(1));
    p.patch(Wire(0), Wire(255));
    assert!(rt; reads(&p, [1, 0, 0, 0]));
    // no gate and no exchange reaches past the width
    p.gate(Kind::X, Wire(2), Wire(0), 0);
    p.gate(Kind::Cnot, Wire(0), Wire(64), 0);
    p.gate(Kind::Cnot, Wire(0), Wire(0), 0);
    p.exchange(Wire(1), Wire(2));
    p.exchange(Wire(1), Wire(1));
    assert!(rt; reads(&p, [1, 0, 0, 0]));
    p.patch(Wire(0), Wire(1));
    assert!(rt; reads(&p, [0, 1, 0, 0]));
    p.gate(Kind::Cnot, Wire(1), Wire(0), 0);
    assert!(rt; reads(&p, [1, 1, 0, 0]));
}

#[test]
fn narrow_and_wide(rt: HostRuntime) {
    let mut none = Panel::new(Thirds::new(Bits::fresh(0)));
    none.patch(Wire(0), Wire(1));
    none.gate(Kind::X, Wire(0), Wire(0), 0);
    assert!(rt; none.width() == 0 && reads(&none, [0, 0, 0, 0]));
    let mut wide = Panel::new(Depth::fresh(200));
    wide.patch(Wire(0), Wire(63));
    wide.gate(Kind::H, Wire(0), Wire(0), 0);
    wide.gate(Kind::H, Wire(64), Wire(0), 0);
    assert!(rt; wide.width() == 64 && wide.read(Wire(0)) == 1 && wide.read(Wire(63)) == 0);
    wide.patch(Wire(0), Wire(63));
    assert!(rt; wide.read(Wire(63)) == 1 && wide.read(Wire(64)) == 0);
}
