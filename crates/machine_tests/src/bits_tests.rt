// Bits.
use crate::reading::reads;
use bits::Bits;
use machine::Machine;
use rows::{Kind, Wire};

#[test]
fn x_flips(rt: HostRuntime) {
    let mut b = Bits::new(2, &[0, 1]);
    b.gate(Kind::X, Wire(0), Wire(0), 0);
    b.gate(Kind::X, Wire(1), Wire(77), 0);
    assert!(rt; reads(&b, [1, 0, 0, 0]));
}

#[test]
fn cnot_adds(rt: HostRuntime) {
    for (c, t, after) in [(0u64, 0u64, 0u64), (0, 1, 1), (1, 0, 1), (1, 1, 0)] {
        let mut b = Bits::new(2, &[c, t]);
        b.gate(Kind::Cnot, Wire(0), Wire(1), 0);
        assert!(rt; reads(&b, [c, after, 0, 0]));
        let mut back = Bits::new(2, &[t, c]);
        back.gate(Kind::Cnot, Wire(1), Wire(0), 0);
        assert!(rt; reads(&back, [after, c, 0, 0]));
    }
}

#[test]
fn unknown_kinds(rt: HostRuntime) {
    let mut b = Bits::new(2, &[1, 0]);
    for kind in [
        Kind::Y,
        Kind::Z,
        Kind::H,
        Kind::S,
        Kind::Sdag,
        Kind::T,
        Kind::Tdag,
        Kind::Cz,
        Kind::Crk,
    ] {
        assert!(rt; !b.knows(kind));
        b.gate(kind, Wire(0), Wire(1), 1);
        assert!(rt; reads(&b, [1, 0, 0, 0]));
    }
    assert!(rt; b.knows(Kind::X) && b.knows(Kind::Cnot));
}

#[test]
fn other_wires(rt: HostRuntime) {
    let mut b = Bits::new(2, &[1, 0, 1]);
    b.gate(Kind::X, Wire(2), Wire(0), 0);
    b.gate(Kind::Cnot, Wire(0), Wire(2), 0);
    b.gate(Kind::Cnot, Wire(0), Wire(0), 0);
    b.exchange(Wire(0), Wire(2));
    b.exchange(Wire(0), Wire(0));
    assert!(rt; reads(&b, [1, 0, 0, 0]));
    b.exchange(Wire(0), Wire(1));
    assert!(rt; reads(&b, [0, 1, 0, 0]));
}

#[test]
fn widths_and_numbers(rt: HostRuntime) {
    for (wires, width) in [(0u8, 0u8), (1, 1), (64, 64), (65, 64), (200, 64)] {
        assert!(rt; Bits::fresh(wires).width() == width);
        assert!(rt; Bits::new(wires, &[1]).width() == width);
    }
    let b = Bits::new(4, &[2, 3, 0xffff_ffff]);
    assert!(rt;
        b.read(Wire(0)) == 0 && b.read(Wire(1)) == 1 && b.read(Wire(2)) == 1 && b.read(Wire(3)) == 0
    );
    let full = Bits::new(200, &[1; 65]);
    assert!(rt; full.read(Wire(63)) == 1 && full.read(Wire(64)) == 0);
    assert!(rt; Bits::new(0, &[1]).read(Wire(0)) == 0 && Bits::fresh(9).read(Wire(8)) == 0);
}
