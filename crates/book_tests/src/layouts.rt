// Layouts, and the refusals that they get.
use crate::sheets::*;
use crate::tools::try_lay;
use rows::Wire;
use std::alloc::Global;
use std::process::Abort;
use std::test::Fail;

/// A layout, and the number and the place of its refusal; none if it is laid.
#[derive(Clone, Copy)]
pub struct Case {
    pub layout: Layout,
    pub refused: Option<(u8, usize)>,
}

/// Chips that are refused.
pub static CHIPS: [Case; 19] = [
    // no wires
    Case {
        layout: Layout { wires: 0, ..SQUARE },
        refused: Some((7, 0)),
    },
    // 65 wires
    Case {
        layout: Layout {
            wires: 65,
            ..SQUARE
        },
        refused: Some((7, 0)),
    },
    // 255 wires, and every other part bad
    Case {
        layout: Layout {
            width: 0,
            wires: 255,
            records: b"\x09\x09\x09\x09",
            qubits: 0,
            gates: &[Line(0, 0, 0, 0)],
            ..SQUARE
        },
        refused: Some((7, 0)),
    },
    // a byte too many
    Case {
        layout: Layout {
            records: b"\x01\x00\x01\x00\x01",
            ..SQUARE
        },
        refused: Some((7, 0)),
    },
    // three bytes of a bad record
    Case {
        layout: Layout {
            records: b"\x09\x09\x09",
            ..SQUARE
        },
        refused: Some((7, 0)),
    },
    // a coupling of a wire that is not there
    Case {
        layout: Layout {
            records: b"\x01\x00\x04\x00",
            ..SQUARE
        },
        refused: Some((8, 12)),
    },
    // a coupling of a wire with itself, after a good one
    Case {
        layout: Layout {
            records: b"\x01\x00\x01\x00\x01\x03\x03\x00",
            ..SQUARE
        },
        refused: Some((8, 13)),
    },
    // a second duration of a kind, before a bad coupling
    Case {
        layout: Layout {
            records: b"\x02\x01\x01\x00\x01\x09\x09\x00",
            ..SQUARE
        },
        refused: Some((8, 12)),
    },
    // a bad record and bad places
    Case {
        layout: Layout {
            records: b"\x01\x00\x01\x01",
            places: &[Wire(0), Wire(0), Wire(0), Wire(0)],
            ..SQUARE
        },
        refused: Some((8, 12)),
    },
    // a bad record, no durations, and wires out of reach
    Case {
        layout: Layout {
            times: Times::Absent,
            records: b"\x03\x00\x01\x00",
            ..SQUARE
        },
        refused: Some((8, 0)),
    },
    // no durations
    Case {
        layout: Layout {
            times: Times::Absent,
            ..SQUARE
        },
        refused: Some((9, 1)),
    },
    // no duration of the exchange
    Case {
        layout: Layout {
            times: Times::Eleven,
            ..SQUARE
        },
        refused: Some((9, 12)),
    },
    // no duration of the exchange, and wires out of reach
    Case {
        layout: Layout {
            times: Times::Eleven,
            records: b"",
            ..SQUARE
        },
        refused: Some((9, 12)),
    },
    // no durations and no qubits
    Case {
        layout: Layout {
            times: Times::Absent,
            qubits: 0,
            places: &[],
            ..SQUARE
        },
        refused: Some((9, 1)),
    },
    // no couplings
    Case {
        layout: Layout {
            records: b"",
            ..SQUARE
        },
        refused: Some((10, 1)),
    },
    // wire 3 is out of reach
    Case {
        layout: Layout {
            records: b"\x01\x00\x01\x00\x01\x02\x00\x00",
            ..SQUARE
        },
        refused: Some((10, 3)),
    },
    // wire 1 is out of reach, with bad places
    Case {
        layout: Layout {
            records: b"\x01\x00\x02\x00\x01\x02\x03\x00",
            places: &[Wire(0), Wire(9), Wire(2), Wire(3)],
            ..SQUARE
        },
        refused: Some((10, 1)),
    },
    // wire 2 is out of reach, with a bad gate
    Case {
        layout: Layout {
            records: b"\x01\x00\x01\x00\x01\x02\x03\x00",
            gates: &[Line(0, 0, 0, 0)],
            ..SQUARE
        },
        refused: Some((10, 2)),
    },
    // wire 1 is out of reach, on a narrow machine
    Case {
        layout: Layout {
            width: 3,
            records: b"\x01\x02\x03\x00",
            ..SQUARE
        },
        refused: Some((10, 1)),
    },
];

/// Places that are refused.
pub static PLACES: [Case; 20] = [
    // no qubits
    Case {
        layout: Layout {
            qubits: 0,
            places: &[],
            ..SQUARE
        },
        refused: Some((11, 0)),
    },
    // no qubits, with four places
    Case {
        layout: Layout {
            qubits: 0,
            ..SQUARE
        },
        refused: Some((11, 0)),
    },
    // 65 qubits
    Case {
        layout: Layout {
            qubits: 65,
            ..SQUARE
        },
        refused: Some((11, 0)),
    },
    // 255 qubits
    Case {
        layout: Layout {
            qubits: 255,
            ..SQUARE
        },
        refused: Some((11, 0)),
    },
    // a place too few
    Case {
        layout: Layout {
            places: &[Wire(0), Wire(1), Wire(2)],
            ..SQUARE
        },
        refused: Some((11, 4)),
    },
    // a place too many
    Case {
        layout: Layout {
            places: &[Wire(0), Wire(1), Wire(2), Wire(3), Wire(0)],
            ..SQUARE
        },
        refused: Some((11, 4)),
    },
    // no places
    Case {
        layout: Layout {
            places: &[],
            ..SQUARE
        },
        refused: Some((11, 4)),
    },
    // a place too few, and one that is not there
    Case {
        layout: Layout {
            places: &[Wire(0), Wire(4), Wire(2)],
            ..SQUARE
        },
        refused: Some((11, 4)),
    },
    // 64 qubits, four places
    Case {
        layout: Layout {
            qubits: 64,
            ..SQUARE
        },
        refused: Some((11, 64)),
    },
    // a wire that is not there
    Case {
        layout: Layout {
            places: &[Wire(0), Wire(1), Wire(4), Wire(3)],
            ..SQUARE
        },
        refused: Some((11, 2)),
    },
    // wire 255, for the last qubit
    Case {
        layout: Layout {
            places: &[Wire(0), Wire(1), Wire(2), Wire(255)],
            ..SQUARE
        },
        refused: Some((11, 3)),
    },
    // a wire used before, next to it
    Case {
        layout: Layout {
            places: &[Wire(2), Wire(2), Wire(1), Wire(0)],
            ..SQUARE
        },
        refused: Some((11, 1)),
    },
    // a wire used before, by the first qubit
    Case {
        layout: Layout {
            places: &[Wire(3), Wire(1), Wire(2), Wire(3)],
            ..SQUARE
        },
        refused: Some((11, 3)),
    },
    // a wire used before, and then one that is not there
    Case {
        layout: Layout {
            places: &[Wire(0), Wire(1), Wire(1), Wire(9)],
            ..SQUARE
        },
        refused: Some((11, 2)),
    },
    // a wire that is not there, and then one used before
    Case {
        layout: Layout {
            places: &[Wire(4), Wire(1), Wire(1), Wire(3)],
            ..SQUARE
        },
        refused: Some((11, 0)),
    },
    // five qubits on four wires, the last on a wire used before
    Case {
        layout: Layout {
            qubits: 5,
            places: &[Wire(3), Wire(2), Wire(1), Wire(0), Wire(2)],
            ..SQUARE
        },
        refused: Some((11, 4)),
    },
    // five qubits on four wires, the last on a wire that is not there
    Case {
        layout: Layout {
            qubits: 5,
            places: &[Wire(3), Wire(2), Wire(1), Wire(0), Wire(4)],
            ..SQUARE
        },
        refused: Some((11, 4)),
    },
    // bad places, a bad gate, and a narrow machine
    Case {
        layout: Layout {
            width: 1,
            places: &[Wire(1), Wire(1), Wire(2), Wire(3)],
            gates: &[Line(0, 0, 0, 0)],
            ..SQUARE
        },
        refused: Some((11, 1)),
    },
    // bad places and an unknown kind
    Case {
        layout: Layout {
            kinds: Some(&[]),
            places: &[Wire(7), Wire(1), Wire(2), Wire(3)],
            ..SQUARE
        },
        refused: Some((11, 0)),
    },
    // one wire, two qubits
    Case {
        layout: Layout {
            wires: 1,
            records: b"",
            qubits: 2,
            places: &[Wire(0), Wire(0)],
            gates: &[Line(X, 0, 0, 0)],
            ..SQUARE
        },
        refused: Some((11, 1)),
    },
];

/// Gates that are refused.
pub static GATES: [Case; 20] = [
    // kind 0
    Case {
        layout: Layout {
            gates: &[Line(0, 0, 0, 0)],
            ..SQUARE
        },
        refused: Some((12, 0)),
    },
    // the exchange is no gate
    Case {
        layout: Layout {
            gates: &[Line(T, 2, 0, 0), Line(SWAP, 0, 1, 0)],
            ..SQUARE
        },
        refused: Some((12, 1)),
    },
    // kind 13
    Case {
        layout: Layout {
            gates: &[Line(T, 2, 0, 0), Line(CNOT, 0, 3, 0), Line(13, 0, 1, 0)],
            ..SQUARE
        },
        refused: Some((12, 2)),
    },
    // kind 255
    Case {
        layout: Layout {
            gates: &[Line(255, 0, 1, 0), Line(T, 2, 0, 0)],
            ..SQUARE
        },
        refused: Some((12, 0)),
    },
    // a first qubit that is not there
    Case {
        layout: Layout {
            gates: &[Line(T, 3, 0, 0), Line(T, 4, 0, 0)],
            ..SQUARE
        },
        refused: Some((12, 1)),
    },
    // a first qubit that is not there, for two qubits
    Case {
        layout: Layout {
            gates: &[Line(CNOT, 4, 0, 0)],
            ..SQUARE
        },
        refused: Some((12, 0)),
    },
    // a second qubit that is not there
    Case {
        layout: Layout {
            gates: &[Line(CZ, 0, 4, 0)],
            ..SQUARE
        },
        refused: Some((12, 0)),
    },
    // qubit 2 of two qubits on four wires
    Case {
        layout: Layout {
            qubits: 2,
            places: &[Wire(2), Wire(1)],
            ..SQUARE
        },
        refused: Some((12, 0)),
    },
    // a qubit with itself
    Case {
        layout: Layout {
            gates: &[Line(T, 2, 0, 0), Line(CNOT, 3, 3, 0)],
            ..SQUARE
        },
        refused: Some((12, 1)),
    },
    // crk of a qubit with itself
    Case {
        layout: Layout {
            gates: &[Line(CRK, 0, 0, 1)],
            ..SQUARE
        },
        refused: Some((12, 0)),
    },
    // a second qubit of a one-qubit kind
    Case {
        layout: Layout {
            gates: &[Line(X, 0, 1, 0)],
            ..SQUARE
        },
        refused: Some((12, 0)),
    },
    // k of a one-qubit kind
    Case {
        layout: Layout {
            gates: &[Line(TDAG, 0, 0, 1)],
            ..SQUARE
        },
        refused: Some((12, 0)),
    },
    // k of cnot
    Case {
        layout: Layout {
            gates: &[Line(CNOT, 0, 1, 1)],
            ..SQUARE
        },
        refused: Some((12, 0)),
    },
    // k of cz
    Case {
        layout: Layout {
            gates: &[Line(CZ, 0, 1, 31)],
            ..SQUARE
        },
        refused: Some((12, 0)),
    },
    // crk with k 0
    Case {
        layout: Layout {
            gates: &[Line(CRK, 0, 1, 1), Line(CRK, 0, 1, 0)],
            ..SQUARE
        },
        refused: Some((12, 1)),
    },
    // crk with k 32
    Case {
        layout: Layout {
            gates: &[Line(CRK, 0, 1, 31), Line(CRK, 0, 1, 32)],
            ..SQUARE
        },
        refused: Some((12, 1)),
    },
    // crk with k 255
    Case {
        layout: Layout {
            gates: &[Line(CRK, 0, 1, 255)],
            ..SQUARE
        },
        refused: Some((12, 0)),
    },
    // the first of two bad rows
    Case {
        layout: Layout {
            gates: &[Line(T, 0, 0, 0), Line(T, 9, 0, 0), Line(0, 0, 0, 0)],
            ..SQUARE
        },
        refused: Some((12, 1)),
    },
    // a bad gate on a narrow machine
    Case {
        layout: Layout {
            width: 0,
            gates: &[Line(T, 0, 0, 0), Line(T, 9, 0, 0)],
            ..SQUARE
        },
        refused: Some((12, 1)),
    },
    // a bad gate after one of an unknown kind
    Case {
        layout: Layout {
            kinds: Some(&[]),
            gates: &[Line(T, 0, 0, 0), Line(T, 9, 0, 0)],
            ..SQUARE
        },
        refused: Some((12, 1)),
    },
];

/// Machines that are refused.
pub static MACHINES: [Case; 9] = [
    // a machine without wires
    Case {
        layout: Layout { width: 0, ..SQUARE },
        refused: Some((13, 0)),
    },
    // a machine with a wire too few
    Case {
        layout: Layout { width: 3, ..SQUARE },
        refused: Some((13, 3)),
    },
    // a narrow machine with enough wires for the qubits
    Case {
        layout: Layout {
            width: 3,
            qubits: 2,
            places: &[Wire(0), Wire(1)],
            gates: &[],
            ..SQUARE
        },
        refused: Some((13, 3)),
    },
    // a narrow machine that knows no kind
    Case {
        layout: Layout {
            width: 2,
            kinds: Some(&[]),
            ..SQUARE
        },
        refused: Some((13, 2)),
    },
    // the first kind is unknown
    Case {
        layout: Layout {
            kinds: Some(&[CNOT]),
            ..SQUARE
        },
        refused: Some((14, 0)),
    },
    // the second kind is unknown
    Case {
        layout: Layout {
            kinds: Some(&[T]),
            ..SQUARE
        },
        refused: Some((14, 1)),
    },
    // no kind is known
    Case {
        layout: Layout {
            kinds: Some(&[]),
            ..SQUARE
        },
        refused: Some((14, 0)),
    },
    // all kinds but cnot are known
    Case {
        layout: Layout {
            kinds: Some(&[X, Y, Z, H, S, SDAG, T, TDAG, CZ, CRK]),
            ..SQUARE
        },
        refused: Some((14, 1)),
    },
    // the last of four gates is of an unknown kind
    Case {
        layout: Layout {
            kinds: Some(&[T, X]),
            gates: &[
                Line(T, 0, 0, 0),
                Line(X, 0, 0, 0),
                Line(T, 1, 0, 0),
                Line(S, 0, 0, 0),
            ],
            ..SQUARE
        },
        refused: Some((14, 3)),
    },
];

/// Layouts that are laid.
pub static LAID: [Case; 9] = [
    // as it is
    Case {
        layout: SQUARE,
        refused: None,
    },
    // crk with k 1 and k 31
    Case {
        layout: Layout {
            gates: &[Line(CRK, 0, 1, 1), Line(CRK, 3, 0, 31)],
            ..SQUARE
        },
        refused: None,
    },
    // a wider machine
    Case {
        layout: Layout {
            width: 64,
            ..SQUARE
        },
        refused: None,
    },
    // a machine of width 255
    Case {
        layout: Layout {
            width: 255,
            ..SQUARE
        },
        refused: None,
    },
    // only the kinds of the circuit are known
    Case {
        layout: Layout {
            kinds: Some(&[T, CNOT]),
            ..SQUARE
        },
        refused: None,
    },
    // no kind is known, and there are no gates
    Case {
        layout: Layout {
            kinds: Some(&[]),
            gates: &[],
            ..SQUARE
        },
        refused: None,
    },
    // the line
    Case {
        layout: LINE,
        refused: None,
    },
    // one qubit, at the last wire
    Case {
        layout: Layout {
            qubits: 1,
            places: &[Wire(3)],
            gates: &[Line(X, 0, 0, 0)],
            ..SQUARE
        },
        refused: None,
    },
    // one wire, one qubit
    Case {
        layout: Layout {
            wires: 1,
            records: b"",
            qubits: 1,
            places: &[Wire(0)],
            gates: &[Line(X, 0, 0, 0)],
            ..SQUARE
        },
        refused: None,
    },
];

fn check_case(
    rt: &impl Abort,
    heap: Global,
    what: &str,
    n: usize,
    case: &Case,
) -> Result<(), Fail> {
    let refused = try_lay(heap, &case.layout)?
        .err()
        .map(|fault| (fault.number(), fault.place));
    assert_eq!(rt; refused, case.refused, "case {n} of {what}");
    Ok(())
}

fn check_cases(rt: &impl Abort, heap: Global, what: &str, cases: &[Case]) -> Result<(), Fail> {
    for (n, case) in cases.iter().enumerate() {
        check_case(rt, heap, what, n, case)?;
    }
    Ok(())
}

#[test]
fn cases(rt: HostRuntime) -> Result<(), Fail> {
    check_cases(&rt, rt.alloc(), "chips", &CHIPS)?;
    check_cases(&rt, rt.alloc(), "places", &PLACES)?;
    check_cases(&rt, rt.alloc(), "gates", &GATES)?;
    check_cases(&rt, rt.alloc(), "machines", &MACHINES)?;
    check_cases(&rt, rt.alloc(), "those laid", &LAID)
}
