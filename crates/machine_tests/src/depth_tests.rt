// Depth: counts of gates.
use crate::reading::reads;
use depth::Depth;
use machine::Machine;
use rows::{Kind, Wire};

#[test]
fn one_wire(rt: HostRuntime) {
    let mut d = Depth::fresh(2);
    let kinds = [
        Kind::X,
        Kind::Y,
        Kind::Z,
        Kind::H,
        Kind::S,
        Kind::Sdag,
        Kind::T,
        Kind::Tdag,
    ];
    for (kind, count) in kinds.into_iter().zip(1..9) {
        assert!(rt; d.knows(kind));
        d.gate(kind, Wire(1), Wire(0), 0);
        assert!(rt; reads(&d, [0, count, 0, 0]));
    }
    assert!(rt; reads(&d, [0, 8, 0, 0]));
}

#[test]
fn two_wires(rt: HostRuntime) {
    for kind in [Kind::Cnot, Kind::Cz, Kind::Crk] {
        let mut d = Depth::new(3, &[4, 1, 9]);
        assert!(rt; d.knows(kind));
        d.gate(kind, Wire(1), Wire(0), 5);
        assert!(rt; reads(&d, [5, 5, 9, 0]));
        d.gate(kind, Wire(1), Wire(2), 5);
        assert!(rt; reads(&d, [5, 10, 10, 0]));
    }
}

#[test]
fn the_largest_count(rt: HostRuntime) {
    let mut d = Depth::new(2, &[4_294_967_294, 0]);
    d.gate(Kind::T, Wire(0), Wire(0), 0);
    assert!(rt; reads(&d, [4_294_967_295, 0, 0, 0]));
    d.gate(Kind::T, Wire(0), Wire(0), 0);
    assert!(rt; reads(&d, [4_294_967_295, 0, 0, 0]));
    d.gate(Kind::Cz, Wire(1), Wire(0), 0);
    assert!(rt; reads(&d, [4_294_967_295, 4_294_967_295, 0, 0]));
}

#[test]
fn other_wires(rt: HostRuntime) {
    let mut d = Depth::new(2, &[3, 1, 7]);
    d.gate(Kind::H, Wire(2), Wire(0), 0);
    d.gate(Kind::Cnot, Wire(2), Wire(0), 0);
    d.gate(Kind::Cnot, Wire(1), Wire(1), 0);
    d.exchange(Wire(0), Wire(2));
    d.exchange(Wire(0), Wire(0));
    assert!(rt; reads(&d, [3, 1, 0, 0]));
    d.exchange(Wire(0), Wire(1));
    assert!(rt; reads(&d, [1, 3, 0, 0]));
}

#[test]
fn widths_and_numbers(rt: HostRuntime) {
    for (wires, width) in [(0u8, 0u8), (1, 1), (64, 64), (65, 64), (200, 64)] {
        assert!(rt; Depth::fresh(wires).width() == width);
        assert!(rt; Depth::new(wires, &[1]).width() == width);
    }
    let d = Depth::new(4, &[0x1_0000_0005, 0xffff_ffff, 0x7_0000_0000]);
    assert!(rt; reads(&d, [5, 4_294_967_295, 0, 0]) && d.read(Wire(4)) == 0);
    let full = Depth::new(200, &[6; 65]);
    assert!(rt;
        full.read(Wire(63)) == 6
            && full.read(Wire(64)) == 0
            && Depth::new(0, &[1]).read(Wire(0)) == 0
    );
}
