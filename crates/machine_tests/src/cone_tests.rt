// Cone: sets of wires, wire i as 2^i.
use crate::reading::reads;
use cone::Cone;
use machine::Machine;
use rows::{Kind, Wire};

#[test]
fn one_wire(rt: HostRuntime) {
    let mut c = Cone::fresh(2);
    for kind in [
        Kind::X,
        Kind::Y,
        Kind::Z,
        Kind::H,
        Kind::S,
        Kind::Sdag,
        Kind::T,
        Kind::Tdag,
    ] {
        assert!(rt; c.knows(kind));
        c.gate(kind, Wire(0), Wire(1), 0);
        assert!(rt; reads(&c, [1, 2, 0, 0]));
    }
}

#[test]
fn two_wires(rt: HostRuntime) {
    for kind in [Kind::Cnot, Kind::Cz, Kind::Crk] {
        let mut c = Cone::fresh(3);
        assert!(rt; c.knows(kind));
        c.gate(kind, Wire(2), Wire(0), 5);
        assert!(rt; reads(&c, [5, 2, 5, 0]));
        c.gate(kind, Wire(1), Wire(0), 5);
        assert!(rt; reads(&c, [7, 7, 5, 0]));
    }
}

#[test]
fn other_wires(rt: HostRuntime) {
    let mut c = Cone::fresh(2);
    c.gate(Kind::Cnot, Wire(0), Wire(2), 0);
    c.gate(Kind::Cnot, Wire(1), Wire(1), 0);
    c.exchange(Wire(0), Wire(2));
    c.exchange(Wire(1), Wire(1));
    assert!(rt; reads(&c, [1, 2, 0, 0]));
    c.exchange(Wire(0), Wire(1));
    assert!(rt; reads(&c, [2, 1, 0, 0]));
}

#[test]
fn widths_and_numbers(rt: HostRuntime) {
    for (wires, width) in [(0u8, 0u8), (1, 1), (64, 64), (65, 64), (200, 64)] {
        assert!(rt; Cone::fresh(wires).width() == width);
        assert!(rt; Cone::new(wires, &[1]).width() == width);
    }
    let c = Cone::new(3, &[0xff, 8, 9, 1]);
    assert!(rt; reads(&c, [7, 0, 1, 0]));
    let full = Cone::new(200, &[0xffff_ffff_ffff_ffff; 65]);
    assert!(rt; full.read(Wire(63)) == 0xffff_ffff_ffff_ffff && full.read(Wire(64)) == 0);
    assert!(rt;
        reads(&Cone::new(0, &[1]), [0, 0, 0, 0]) && reads(&Cone::new(2, &[1]), [1, 0, 0, 0])
    );
    assert!(rt;
        Cone::fresh(64).read(Wire(63)) == 0x8000_0000_0000_0000 && Cone::fresh(5).read(Wire(5)) == 0
    );
}
