// The rows that the tables are made of, and the sheets that they start from.
use rows::{Logical, Wire};

pub const X: u8 = 1;

pub const Y: u8 = 2;

pub const Z: u8 = 3;

pub const H: u8 = 4;

pub const S: u8 = 5;

pub const SDAG: u8 = 6;

pub const T: u8 = 7;

pub const TDAG: u8 = 8;

pub const CNOT: u8 = 9;

pub const CZ: u8 = 10;

pub const CRK: u8 = 11;

pub const SWAP: u8 = 12;

/// A gate row: kind, first and second qubit, k.
#[derive(Clone, Copy)]
pub struct Line(pub u8, pub u8, pub u8, pub u8);

/// A step row: start, kind, first and second wire, k.
#[derive(Clone, Copy)]
pub struct Row(pub u32, pub u8, pub u8, pub u8, pub u8);

/// What a step gets: its gate by number, or the two wires that it exchanges, and its end; or a refusal's number and place.
/// What clearing gets: gates, kept steps, exchanges and last end; or a refusal.
#[derive(Clone, Copy, Debug, PartialEq)]
pub enum Answer {
    Gate(usize, u32),
    Exchange(u8, u8, u32),
    Clear(u32, u32, u32, u32),
    Refused(u8, usize),
}

/// What a book shows of one number: the wire of the qubit as laid and now, the qubit on the wire, the cycle from which the
/// wire is free, and whether the gate is open.
#[derive(Clone, Copy, PartialEq)]
pub struct Look(
    pub Option<Wire>,
    pub Option<Wire>,
    pub Option<Logical>,
    pub Option<u32>,
    pub Option<bool>,
);

/// The records of durations that a chip has: none; all; all but that of the exchange; all, each another.
#[derive(Clone, Copy)]
pub enum Times {
    Absent,
    Even,
    Eleven,
    Uneven,
}

/// What is laid: over a machine of this width and these kinds, or every kind for none, a chip of so many wires by the records
/// of `times` and then those of `records`, and a circuit of so many qubits at these wires.
#[derive(Clone, Copy)]
pub struct Layout {
    pub width: u8,
    pub kinds: Option<&'static [u8]>,
    pub wires: u8,
    pub times: Times,
    pub records: &'static [u8],
    pub qubits: u8,
    pub places: &'static [Wire],
    pub gates: &'static [Line],
}

/// One-qubit kinds 1 cycle, the exchange 6, the others 2.
pub static EVEN: &'static [u8] =
    b"\x02\x01\x01\x00\x02\x02\x01\x00\x02\x03\x01\x00\x02\x04\x01\x00\x02\x05\x01\x00\x02\x06\x01\x00\x02\x07\x01\x00\x02\x08\x01\x00\x02\x09\x02\x00\x02\x0a\x02\x00\x02\x0b\x02\x00\x02\x0c\x06\x00";

/// The same without a record of the exchange.
pub static ELEVEN: &'static [u8] =
    b"\x02\x01\x01\x00\x02\x02\x01\x00\x02\x03\x01\x00\x02\x04\x01\x00\x02\x05\x01\x00\x02\x06\x01\x00\x02\x07\x01\x00\x02\x08\x01\x00\x02\x09\x02\x00\x02\x0a\x02\x00\x02\x0b\x02\x00";

/// The kinds in turn 3, 5, 7, 11, 13, 17, 19, 23, 256, 4095 and 29 cycles, the exchange 1000.
pub static UNEVEN: &'static [u8] =
    b"\x02\x01\x03\x00\x02\x02\x05\x00\x02\x03\x07\x00\x02\x04\x0b\x00\x02\x05\x0d\x00\x02\x06\x11\x00\x02\x07\x13\x00\x02\x08\x17\x00\x02\x09\x00\x01\x02\x0a\xff\x0f\x02\x0b\x1d\x00\x02\x0c\xe8\x03";

/// The couplings 0-1, 0-2, 1-3, 2-3.
pub const SIDES: &'static [u8] =
    b"\x01\x00\x01\x00\x01\x00\x02\x00\x01\x01\x03\x00\x01\x02\x03\x00";

/// The square chip, four qubits at the wires of their numbers, and `t q2`, `cnot q0,q3`.
pub const SQUARE: Layout = Layout {
    width: 4,
    kinds: None,
    wires: 4,
    times: Times::Even,
    records: SIDES,
    qubits: 4,
    places: &[Wire(0), Wire(1), Wire(2), Wire(3)],
    gates: &[Line(T, 2, 0, 0), Line(CNOT, 0, 3, 0)],
};

/// A line of six wires with qubits 0, 1, 2 at the wires 2, 1, 4, and `cnot q0,q1`, `cz q1,q2`, `h q2`.
pub const LINE: Layout = Layout {
    width: 6,
    kinds: None,
    wires: 6,
    times: Times::Even,
    records: b"\x01\x00\x01\x00\x01\x01\x02\x00\x01\x02\x03\x00\x01\x03\x04\x00\x01\x04\x05\x00",
    qubits: 3,
    places: &[Wire(2), Wire(1), Wire(4)],
    gates: &[Line(CNOT, 0, 1, 0), Line(CZ, 1, 2, 0), Line(H, 2, 0, 0)],
};
