// Pauli, by the textbook's tables. A letter reads I as 0, X as 1, Z as 2 and Y as 3.
use crate::reading::reads;
use machine::Machine;
use pauli::Pauli;
use rows::{Kind, Wire};
use std::process::Abort;

const I: u64 = 0;

const X: u64 = 1;

const Z: u64 = 2;

const Y: u64 = 3;

// A gate on wire 0 of one wire, from plus: the letter after it, and whether the sign is then minus.
fn single(kind: Kind, letter: u64) -> (u64, bool) {
    let mut p = Pauli::new(1, &[letter]);
    p.gate(kind, Wire(0), Wire(0), 0);
    (p.read(Wire(0)), p.is_minus())
}

// A gate on wires 0 and 1.
fn double(kind: Kind, first: u64, second: u64) -> (u64, u64, bool) {
    let mut p = Pauli::new(2, &[first, second]);
    p.gate(kind, Wire(0), Wire(1), 0);
    (p.read(Wire(0)), p.read(Wire(1)), p.is_minus())
}

fn check_single(rt: &impl Abort, kind: Kind, rows: &[(u64, u64, bool)]) {
    for (before, after, minus) in rows {
        let (letter, sign) = single(kind, *before);
        assert!(rt; letter == *after && sign == *minus);
    }
}

fn check_double(rt: &impl Abort, kind: Kind, rows: &[(u64, u64, u64, u64, bool)]) {
    for (a, b, first, second, minus) in rows {
        let (u, v, sign) = double(kind, *a, *b);
        assert!(rt; u == *first && v == *second && sign == *minus);
    }
}

#[test]
fn x_y_z(rt: HostRuntime) {
    check_single(
        &rt,
        Kind::X,
        &[(I, I, false), (X, X, false), (Z, Z, true), (Y, Y, true)],
    );
    check_single(
        &rt,
        Kind::Y,
        &[(I, I, false), (X, X, true), (Z, Z, true), (Y, Y, false)],
    );
    check_single(
        &rt,
        Kind::Z,
        &[(I, I, false), (X, X, true), (Z, Z, false), (Y, Y, true)],
    );
}

#[test]
fn h_s_sdag(rt: HostRuntime) {
    check_single(
        &rt,
        Kind::H,
        &[(I, I, false), (X, Z, false), (Z, X, false), (Y, Y, true)],
    );
    check_single(
        &rt,
        Kind::S,
        &[(I, I, false), (X, Y, false), (Z, Z, false), (Y, X, true)],
    );
    check_single(
        &rt,
        Kind::Sdag,
        &[(I, I, false), (X, Y, true), (Z, Z, false), (Y, X, false)],
    );
}

#[test]
fn cnot(rt: HostRuntime) {
    check_double(
        &rt,
        Kind::Cnot,
        &[
            (I, I, I, I, false),
            (I, X, I, X, false),
            (I, Y, Z, Y, false),
            (I, Z, Z, Z, false),
            (X, I, X, X, false),
            (X, X, X, I, false),
            (X, Y, Y, Z, false),
            (X, Z, Y, Y, true),
            (Y, I, Y, X, false),
            (Y, X, Y, I, false),
            (Y, Y, X, Z, true),
            (Y, Z, X, Y, false),
            (Z, I, Z, I, false),
            (Z, X, Z, X, false),
            (Z, Y, I, Y, false),
            (Z, Z, I, Z, false),
        ],
    );
}

#[test]
fn cz(rt: HostRuntime) {
    check_double(
        &rt,
        Kind::Cz,
        &[
            (I, I, I, I, false),
            (I, X, Z, X, false),
            (I, Y, Z, Y, false),
            (I, Z, I, Z, false),
            (X, I, X, Z, false),
            (X, X, Y, Y, false),
            (X, Y, Y, X, true),
            (X, Z, X, I, false),
            (Y, I, Y, Z, false),
            (Y, X, X, Y, true),
            (Y, Y, X, X, false),
            (Y, Z, Y, I, false),
            (Z, I, Z, I, false),
            (Z, X, I, X, false),
            (Z, Y, I, Y, false),
            (Z, Z, Z, Z, false),
        ],
    );
}

#[test]
fn unknown_kinds(rt: HostRuntime) {
    for letter in [I, X, Z, Y] {
        check_single(&rt, Kind::T, &[(letter, letter, false)]);
        check_single(&rt, Kind::Tdag, &[(letter, letter, false)]);
        check_double(&rt, Kind::Crk, &[(letter, Y, letter, Y, false)]);
    }
    let p = Pauli::fresh(1);
    assert!(rt; p.knows(Kind::Sdag) && p.knows(Kind::Cz));
    assert!(rt; !p.knows(Kind::T) && !p.knows(Kind::Tdag) && !p.knows(Kind::Crk));
}

#[test]
fn signs_cancel(rt: HostRuntime) {
    let mut p = Pauli::signed(1, &[Z], true);
    p.gate(Kind::X, Wire(0), Wire(9), 0);
    assert!(rt; !p.is_minus());
    p.gate(Kind::X, Wire(0), Wire(0), 0);
    assert!(rt; p.is_minus() && reads(&p, [Z, 0, 0, 0]));
}

#[test]
fn other_wires(rt: HostRuntime) {
    let mut p = Pauli::new(2, &[X, Z, Y]);
    p.gate(Kind::H, Wire(2), Wire(0), 0);
    p.gate(Kind::Cnot, Wire(0), Wire(2), 0);
    p.gate(Kind::Cnot, Wire(0), Wire(0), 0);
    p.exchange(Wire(1), Wire(1));
    p.exchange(Wire(1), Wire(2));
    assert!(rt; !p.is_minus() && reads(&p, [X, Z, 0, 0]));
    p.exchange(Wire(0), Wire(1));
    assert!(rt; reads(&p, [Z, X, 0, 0]));
}

#[test]
fn widths_and_numbers(rt: HostRuntime) {
    for (wires, width) in [(0u8, 0u8), (1, 1), (64, 64), (65, 64), (200, 64)] {
        assert!(rt; Pauli::fresh(wires).width() == width);
        assert!(rt; Pauli::signed(wires, &[], true).width() == width);
    }
    let p = Pauli::new(4, &[4, 7, 0xffff_fffe]);
    assert!(rt; reads(&p, [I, Y, Z, I]));
    let q = Pauli::signed(0, &[3], true);
    assert!(rt; q.read(Wire(0)) == 0 && q.is_minus());
    let r = Pauli::new(200, &[1; 65]);
    assert!(rt; r.read(Wire(63)) == X && r.read(Wire(64)) == 0 && r.read(Wire(255)) == 0);
}
