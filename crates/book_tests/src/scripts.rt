// Steps offered in turn, each with the answer that it gets.
use crate::sheets::Answer::{Clear, Exchange, Gate, Refused};
use crate::sheets::*;
use rows::Wire;

/// A layout, steps offered to its book in turn, and what clearing gets then.
#[derive(Clone, Copy)]
pub struct Script {
    pub layout: Layout,
    pub offers: &'static [(Row, Answer)],
    pub end: Answer,
}

pub static SCRIPTS: [Script; 24] = [
    // the square: uncoupled, not next, kept, busy, kept
    Script {
        layout: SQUARE,
        offers: &[
            (Row(0, CNOT, 0, 3, 0), Refused(17, 0)),
            (Row(0, T, 1, 0, 0), Refused(20, 0)),
            (Row(0, T, 2, 0, 0), Gate(0, 1)),
            (Row(0, SWAP, 2, 3, 0), Refused(18, 1)),
            (Row(1, SWAP, 2, 3, 0), Exchange(2, 3, 7)),
        ],
        end: Refused(23, 1),
    },
    // the square, done in the circuit's order
    Script {
        layout: SQUARE,
        offers: &[
            (Row(0, T, 2, 0, 0), Gate(0, 1)),
            (Row(0, SWAP, 0, 1, 0), Exchange(0, 1, 6)),
            (Row(6, CNOT, 0, 3, 0), Refused(17, 2)),
            (Row(6, CNOT, 3, 1, 0), Refused(20, 2)),
            (Row(5, CNOT, 1, 3, 0), Refused(18, 2)),
            (Row(6, CNOT, 1, 3, 0), Gate(1, 8)),
            (Row(8, CNOT, 1, 3, 0), Refused(20, 3)),
        ],
        end: Clear(2, 3, 1, 8),
    },
    // the square, the later gate first
    Script {
        layout: SQUARE,
        offers: &[
            (Row(0, SWAP, 0, 1, 0), Exchange(0, 1, 6)),
            (Row(6, CNOT, 1, 3, 0), Gate(1, 8)),
            (Row(0, T, 2, 0, 0), Gate(0, 1)),
            (Row(1, T, 2, 0, 0), Refused(20, 3)),
        ],
        end: Clear(2, 3, 1, 8),
    },
    // only the first gate
    Script {
        layout: SQUARE,
        offers: &[(Row(0, T, 2, 0, 0), Gate(0, 1))],
        end: Refused(23, 1),
    },
    // only the second gate
    Script {
        layout: SQUARE,
        offers: &[
            (Row(0, SWAP, 1, 0, 0), Exchange(1, 0, 6)),
            (Row(6, CNOT, 1, 3, 0), Gate(1, 8)),
        ],
        end: Refused(23, 0),
    },
    // nothing is offered
    Script {
        layout: SQUARE,
        offers: &[],
        end: Refused(23, 0),
    },
    // no gates, nothing is offered
    Script {
        layout: Layout {
            gates: &[],
            ..SQUARE
        },
        offers: &[],
        end: Clear(0, 0, 0, 0),
    },
    // no gates, exchanges alone; the last end is not that of the last step
    Script {
        layout: Layout {
            gates: &[],
            ..SQUARE
        },
        offers: &[
            (Row(0, X, 0, 0, 0), Refused(20, 0)),
            (Row(0, CZ, 0, 1, 0), Refused(20, 0)),
            (Row(30, SWAP, 0, 1, 0), Exchange(0, 1, 36)),
            (Row(3, SWAP, 3, 2, 0), Exchange(3, 2, 9)),
            (Row(8, SWAP, 2, 3, 0), Refused(18, 2)),
            (Row(9, SWAP, 2, 3, 0), Exchange(2, 3, 15)),
        ],
        end: Clear(0, 3, 3, 36),
    },
    // ends at the last cycle and one past it, of an exchange
    Script {
        layout: SQUARE,
        offers: &[
            (Row(4294967290, SWAP, 0, 1, 0), Refused(19, 0)),
            (Row(4294967295, SWAP, 0, 1, 0), Refused(19, 0)),
            (Row(4294967289, SWAP, 0, 1, 0), Exchange(0, 1, 4294967295)),
            (Row(4294967288, SWAP, 0, 1, 0), Refused(18, 1)),
            (Row(4294967294, SWAP, 0, 1, 0), Refused(18, 1)),
            (Row(4294967294, SWAP, 2, 0, 0), Refused(18, 1)),
            (Row(4294967294, X, 0, 0, 0), Refused(18, 1)),
            (Row(4294967295, SWAP, 0, 1, 0), Refused(19, 1)),
            (Row(4294967295, X, 1, 0, 0), Refused(19, 1)),
            (Row(4294967295, T, 2, 0, 0), Refused(19, 1)),
            (Row(4294967294, T, 2, 0, 0), Gate(0, 4294967295)),
        ],
        end: Refused(23, 1),
    },
    // ends at the last cycle and one past it, of gates
    Script {
        layout: Layout {
            gates: &[Line(X, 0, 0, 0), Line(CNOT, 2, 3, 0)],
            ..SQUARE
        },
        offers: &[
            (Row(4294967295, X, 0, 0, 0), Refused(19, 0)),
            (Row(4294967295, Y, 0, 0, 0), Refused(19, 0)),
            (Row(4294967294, Y, 0, 0, 0), Refused(20, 0)),
            (Row(4294967294, X, 0, 0, 0), Gate(0, 4294967295)),
            (Row(4294967295, CNOT, 2, 3, 0), Refused(19, 1)),
            (Row(4294967294, CNOT, 2, 3, 0), Refused(19, 1)),
            (Row(4294967294, CNOT, 3, 2, 0), Refused(19, 1)),
            (Row(4294967293, CNOT, 3, 2, 0), Refused(20, 1)),
            (Row(4294967293, CNOT, 2, 3, 0), Gate(1, 4294967295)),
        ],
        end: Clear(2, 2, 0, 4294967295),
    },
    // two numbers fit at once
    Script {
        layout: SQUARE,
        offers: &[
            (Row(0, CNOT, 0, 3, 1), Refused(16, 0)),
            (Row(4294967295, 13, 0, 0, 0), Refused(16, 0)),
            (Row(4294967295, T, 4, 0, 0), Refused(16, 0)),
            (Row(4294967295, SWAP, 0, 3, 0), Refused(17, 0)),
            (Row(0, CZ, 3, 0, 0), Refused(17, 0)),
            (Row(4294967295, CRK, 1, 2, 3), Refused(17, 0)),
            (Row(4294967295, H, 3, 0, 0), Refused(19, 0)),
            (Row(0, T, 2, 0, 0), Gate(0, 1)),
            (Row(0, T, 2, 1, 0), Refused(16, 1)),
            (Row(0, CNOT, 2, 2, 0), Refused(16, 1)),
            (Row(0, SWAP, 2, 1, 0), Refused(17, 1)),
            (Row(0, CNOT, 1, 2, 0), Refused(17, 1)),
            (Row(0, H, 2, 0, 0), Refused(18, 1)),
            (Row(0, T, 2, 0, 0), Refused(18, 1)),
            (Row(1, T, 2, 0, 0), Refused(20, 1)),
            (Row(0, CZ, 3, 2, 0), Refused(18, 1)),
        ],
        end: Refused(23, 1),
    },
    // every byte of a row off
    Script {
        layout: Layout {
            gates: &[Line(X, 0, 0, 0), Line(CRK, 0, 1, 1), Line(CRK, 0, 1, 31)],
            ..SQUARE
        },
        offers: &[
            (Row(0, 0, 0, 0, 0), Refused(16, 0)),
            (Row(0, 0, 0, 1, 0), Refused(16, 0)),
            (Row(0, 13, 0, 0, 0), Refused(16, 0)),
            (Row(0, 13, 0, 1, 0), Refused(16, 0)),
            (Row(0, 255, 0, 0, 0), Refused(16, 0)),
            (Row(0, 255, 255, 255, 255), Refused(16, 0)),
            (Row(0, X, 4, 0, 0), Refused(16, 0)),
            (Row(0, X, 255, 0, 0), Refused(16, 0)),
            (Row(0, X, 0, 1, 0), Refused(16, 0)),
            (Row(0, Y, 0, 1, 0), Refused(16, 0)),
            (Row(0, Z, 0, 1, 0), Refused(16, 0)),
            (Row(0, H, 0, 1, 0), Refused(16, 0)),
            (Row(0, S, 0, 1, 0), Refused(16, 0)),
            (Row(0, SDAG, 0, 1, 0), Refused(16, 0)),
            (Row(0, T, 0, 1, 0), Refused(16, 0)),
            (Row(0, TDAG, 0, 1, 0), Refused(16, 0)),
            (Row(0, X, 1, 1, 0), Refused(16, 0)),
            (Row(0, X, 0, 255, 0), Refused(16, 0)),
            (Row(0, X, 0, 0, 1), Refused(16, 0)),
            (Row(0, Y, 0, 0, 1), Refused(16, 0)),
            (Row(0, Z, 0, 0, 1), Refused(16, 0)),
            (Row(0, H, 0, 0, 1), Refused(16, 0)),
            (Row(0, S, 0, 0, 1), Refused(16, 0)),
            (Row(0, SDAG, 0, 0, 1), Refused(16, 0)),
            (Row(0, T, 0, 0, 1), Refused(16, 0)),
            (Row(0, TDAG, 0, 0, 255), Refused(16, 0)),
            (Row(0, CNOT, 4, 0, 0), Refused(16, 0)),
            (Row(0, CNOT, 0, 4, 0), Refused(16, 0)),
            (Row(0, CNOT, 0, 0, 0), Refused(16, 0)),
            (Row(0, CNOT, 0, 1, 1), Refused(16, 0)),
            (Row(0, CNOT, 255, 1, 0), Refused(16, 0)),
            (Row(0, CZ, 4, 2, 0), Refused(16, 0)),
            (Row(0, CZ, 2, 4, 0), Refused(16, 0)),
            (Row(0, CZ, 3, 3, 0), Refused(16, 0)),
            (Row(0, CZ, 0, 1, 255), Refused(16, 0)),
            (Row(0, CZ, 1, 255, 0), Refused(16, 0)),
            (Row(0, CRK, 0, 1, 0), Refused(16, 0)),
            (Row(0, CRK, 0, 1, 32), Refused(16, 0)),
            (Row(0, CRK, 0, 1, 255), Refused(16, 0)),
            (Row(0, CRK, 1, 1, 1), Refused(16, 0)),
            (Row(0, CRK, 4, 1, 1), Refused(16, 0)),
            (Row(0, CRK, 0, 4, 1), Refused(16, 0)),
            (Row(0, SWAP, 4, 0, 0), Refused(16, 0)),
            (Row(0, SWAP, 0, 4, 0), Refused(16, 0)),
            (Row(0, SWAP, 2, 2, 0), Refused(16, 0)),
            (Row(0, SWAP, 0, 1, 1), Refused(16, 0)),
            (Row(0, SWAP, 0, 1, 255), Refused(16, 0)),
            (Row(0, SWAP, 0, 0, 0), Refused(16, 0)),
            (Row(0, X, 0, 0, 0), Gate(0, 1)),
            (Row(0, 0, 0, 0, 0), Refused(16, 1)),
            (Row(1, CRK, 0, 1, 0), Refused(16, 1)),
            (Row(1, CRK, 0, 1, 1), Gate(1, 3)),
            (Row(3, CRK, 0, 1, 32), Refused(16, 2)),
            (Row(3, CRK, 0, 1, 31), Gate(2, 5)),
            (Row(5, SWAP, 1, 0, 1), Refused(16, 3)),
        ],
        end: Clear(3, 3, 0, 5),
    },
    // another k, and the qubits of crk turned
    Script {
        layout: Layout {
            gates: &[Line(CRK, 0, 1, 31), Line(CRK, 1, 0, 1)],
            ..SQUARE
        },
        offers: &[
            (Row(0, CRK, 0, 1, 30), Refused(20, 0)),
            (Row(0, CRK, 0, 1, 1), Refused(20, 0)),
            (Row(0, CRK, 1, 0, 31), Refused(20, 0)),
            (Row(0, CRK, 1, 0, 1), Refused(20, 0)),
            (Row(0, CNOT, 0, 1, 0), Refused(20, 0)),
            (Row(0, CRK, 0, 1, 31), Gate(0, 2)),
            (Row(2, CRK, 0, 1, 31), Refused(20, 1)),
            (Row(2, CRK, 0, 1, 1), Refused(20, 1)),
            (Row(2, CRK, 1, 0, 31), Refused(20, 1)),
            (Row(2, CRK, 1, 0, 1), Gate(1, 4)),
        ],
        end: Clear(2, 2, 0, 4),
    },
    // the qubits of cnot and of cz turned, and the later gate first
    Script {
        layout: Layout {
            gates: &[Line(CNOT, 0, 1, 0), Line(CZ, 2, 3, 0)],
            ..SQUARE
        },
        offers: &[
            (Row(0, CNOT, 1, 0, 0), Refused(20, 0)),
            (Row(0, CZ, 3, 2, 0), Refused(20, 0)),
            (Row(0, CZ, 0, 1, 0), Refused(20, 0)),
            (Row(0, CNOT, 2, 3, 0), Refused(20, 0)),
            (Row(0, CNOT, 0, 2, 0), Refused(20, 0)),
            (Row(0, CZ, 1, 3, 0), Refused(20, 0)),
            (Row(0, CZ, 2, 3, 0), Gate(1, 2)),
            (Row(2, CZ, 2, 3, 0), Refused(20, 1)),
            (Row(2, CZ, 3, 2, 0), Refused(20, 1)),
            (Row(0, CNOT, 0, 1, 0), Gate(0, 2)),
            (Row(2, CNOT, 0, 1, 0), Refused(20, 2)),
        ],
        end: Clear(2, 2, 0, 2),
    },
    // earlier open gates that share a qubit
    Script {
        layout: Layout {
            gates: &[
                Line(S, 0, 0, 0),
                Line(SDAG, 0, 0, 0),
                Line(CNOT, 0, 1, 0),
                Line(X, 1, 0, 0),
                Line(CNOT, 3, 1, 0),
                Line(H, 3, 0, 0),
                Line(H, 2, 0, 0),
            ],
            ..SQUARE
        },
        offers: &[
            (Row(0, SDAG, 0, 0, 0), Refused(20, 0)),
            (Row(0, X, 0, 0, 0), Refused(20, 0)),
            (Row(0, S, 1, 0, 0), Refused(20, 0)),
            (Row(0, CNOT, 0, 1, 0), Refused(20, 0)),
            (Row(0, X, 1, 0, 0), Refused(20, 0)),
            (Row(0, CNOT, 3, 1, 0), Refused(20, 0)),
            (Row(0, H, 3, 0, 0), Refused(20, 0)),
            (Row(0, H, 2, 0, 0), Gate(6, 1)),
            (Row(1, H, 2, 0, 0), Refused(20, 1)),
            (Row(0, S, 0, 0, 0), Gate(0, 1)),
            (Row(1, S, 0, 0, 0), Refused(20, 2)),
            (Row(0, SDAG, 0, 0, 0), Refused(18, 2)),
            (Row(1, CNOT, 0, 1, 0), Refused(20, 2)),
            (Row(1, SDAG, 0, 0, 0), Gate(1, 2)),
            (Row(2, CNOT, 1, 0, 0), Refused(20, 3)),
            (Row(2, CZ, 0, 1, 0), Refused(20, 3)),
            (Row(1, CNOT, 0, 1, 0), Refused(18, 3)),
            (Row(2, CNOT, 0, 1, 0), Gate(2, 4)),
            (Row(4, CNOT, 3, 1, 0), Refused(20, 4)),
            (Row(4, X, 1, 0, 0), Gate(3, 5)),
            (Row(4, CNOT, 3, 1, 0), Refused(18, 5)),
            (Row(5, H, 3, 0, 0), Refused(20, 5)),
            (Row(5, CNOT, 3, 1, 0), Gate(4, 7)),
            (Row(6, H, 3, 0, 0), Refused(18, 6)),
            (Row(7, H, 3, 0, 0), Gate(5, 8)),
            (Row(8, H, 3, 0, 0), Refused(20, 7)),
        ],
        end: Clear(7, 7, 0, 8),
    },
    // an earlier open gate that shares the second qubit only, and one that shares the first only
    Script {
        layout: Layout {
            gates: &[
                Line(Z, 0, 0, 0),
                Line(Z, 3, 0, 0),
                Line(CZ, 1, 0, 0),
                Line(CZ, 3, 2, 0),
            ],
            ..SQUARE
        },
        offers: &[
            (Row(0, CZ, 1, 0, 0), Refused(20, 0)),
            (Row(0, CZ, 3, 2, 0), Refused(20, 0)),
            (Row(0, Z, 3, 0, 0), Gate(1, 1)),
            (Row(0, Z, 0, 0, 0), Gate(0, 1)),
            (Row(1, CZ, 3, 2, 0), Gate(3, 3)),
            (Row(1, CZ, 1, 0, 0), Gate(2, 3)),
        ],
        end: Clear(4, 4, 0, 3),
    },
    // the same gate twice in the circuit, done in order
    Script {
        layout: Layout {
            gates: &[
                Line(X, 0, 0, 0),
                Line(X, 0, 0, 0),
                Line(CNOT, 0, 1, 0),
                Line(CNOT, 0, 1, 0),
            ],
            ..SQUARE
        },
        offers: &[
            (Row(0, X, 0, 0, 0), Gate(0, 1)),
            (Row(0, X, 0, 0, 0), Refused(18, 1)),
            (Row(1, CNOT, 0, 1, 0), Refused(20, 1)),
            (Row(1, X, 0, 0, 0), Gate(1, 2)),
            (Row(2, X, 0, 0, 0), Refused(20, 2)),
            (Row(2, CNOT, 0, 1, 0), Gate(2, 4)),
            (Row(4, CNOT, 0, 1, 0), Gate(3, 6)),
            (Row(6, CNOT, 0, 1, 0), Refused(20, 4)),
        ],
        end: Clear(4, 4, 0, 6),
    },
    // the same gate twice with another between them
    Script {
        layout: Layout {
            gates: &[Line(X, 0, 0, 0), Line(Y, 0, 0, 0), Line(X, 0, 0, 0)],
            ..SQUARE
        },
        offers: &[
            (Row(0, Y, 0, 0, 0), Refused(20, 0)),
            (Row(0, X, 0, 0, 0), Gate(0, 1)),
            (Row(1, X, 0, 0, 0), Refused(20, 1)),
            (Row(1, Y, 0, 0, 0), Gate(1, 2)),
            (Row(2, Y, 0, 0, 0), Refused(20, 2)),
            (Row(2, X, 0, 0, 0), Gate(2, 3)),
            (Row(3, X, 0, 0, 0), Refused(20, 3)),
        ],
        end: Clear(3, 3, 0, 3),
    },
    // one before and at the free cycle, of the first and of the second wire
    Script {
        layout: Layout {
            gates: &[Line(X, 0, 0, 0), Line(CNOT, 0, 1, 0), Line(CNOT, 2, 0, 0)],
            ..SQUARE
        },
        offers: &[
            (Row(2, X, 0, 0, 0), Gate(0, 3)),
            (Row(2, CNOT, 0, 1, 0), Refused(18, 1)),
            (Row(0, CNOT, 0, 1, 0), Refused(18, 1)),
            (Row(3, CNOT, 0, 1, 0), Gate(1, 5)),
            (Row(4, CNOT, 2, 0, 0), Refused(18, 2)),
            (Row(5, CNOT, 2, 0, 0), Gate(2, 7)),
            (Row(100, SWAP, 1, 3, 0), Exchange(1, 3, 106)),
            (Row(105, SWAP, 3, 2, 0), Refused(18, 4)),
            (Row(105, SWAP, 2, 3, 0), Refused(18, 4)),
            (Row(6, SWAP, 0, 2, 0), Refused(18, 4)),
            (Row(7, SWAP, 0, 2, 0), Exchange(0, 2, 13)),
            (Row(106, SWAP, 2, 3, 0), Exchange(2, 3, 112)),
            (Row(13, SWAP, 0, 1, 0), Refused(18, 6)),
            (Row(50, SWAP, 2, 0, 0), Refused(18, 6)),
        ],
        end: Clear(3, 6, 3, 112),
    },
    // empty wires
    Script {
        layout: LINE,
        offers: &[
            (Row(0, H, 0, 0, 0), Refused(20, 0)),
            (Row(0, H, 3, 0, 0), Refused(20, 0)),
            (Row(0, CZ, 2, 3, 0), Refused(20, 0)),
            (Row(0, CZ, 3, 2, 0), Refused(20, 0)),
            (Row(0, CNOT, 0, 1, 0), Refused(20, 0)),
            (Row(0, CNOT, 1, 2, 0), Refused(20, 0)),
            (Row(0, SWAP, 3, 5, 0), Refused(17, 0)),
            (Row(0, SWAP, 0, 2, 0), Refused(17, 0)),
            (Row(0, SWAP, 0, 5, 0), Refused(17, 0)),
            (Row(0, SWAP, 5, 6, 0), Refused(16, 0)),
            (Row(0, H, 6, 0, 0), Refused(16, 0)),
            (Row(4294967290, SWAP, 4, 5, 0), Refused(19, 0)),
            (Row(0, SWAP, 4, 5, 0), Exchange(4, 5, 6)),
            (Row(5, SWAP, 5, 4, 0), Refused(18, 1)),
            (Row(5, SWAP, 3, 4, 0), Refused(18, 1)),
            (Row(6, SWAP, 3, 4, 0), Exchange(3, 4, 12)),
            (Row(11, SWAP, 2, 3, 0), Refused(18, 2)),
            (Row(11, H, 3, 0, 0), Refused(18, 2)),
            (Row(12, H, 3, 0, 0), Refused(20, 2)),
            (Row(0, CNOT, 2, 1, 0), Gate(0, 2)),
            (Row(11, SWAP, 4, 5, 0), Refused(18, 3)),
            (Row(12, SWAP, 5, 4, 0), Exchange(5, 4, 18)),
            (Row(18, SWAP, 3, 4, 0), Exchange(3, 4, 24)),
            (Row(1, SWAP, 1, 2, 0), Refused(18, 5)),
            (Row(2, SWAP, 1, 2, 0), Exchange(1, 2, 8)),
            (Row(24, CZ, 3, 2, 0), Refused(20, 6)),
            (Row(24, H, 3, 0, 0), Refused(20, 6)),
            (Row(23, CZ, 2, 3, 0), Refused(18, 6)),
            (Row(24, CZ, 2, 3, 0), Gate(1, 26)),
            (Row(25, H, 3, 0, 0), Refused(18, 7)),
            (Row(26, H, 4, 0, 0), Refused(20, 7)),
            (Row(26, H, 3, 0, 0), Gate(2, 27)),
        ],
        end: Clear(3, 8, 5, 27),
    },
    // two empty wires, at once
    Script {
        layout: Layout {
            qubits: 1,
            places: &[Wire(2)],
            gates: &[Line(X, 0, 0, 0)],
            ..SQUARE
        },
        offers: &[
            (Row(0, SWAP, 2, 3, 0), Exchange(2, 3, 6)),
            (Row(0, SWAP, 1, 0, 0), Exchange(1, 0, 6)),
            (Row(5, SWAP, 3, 1, 0), Refused(18, 2)),
            (Row(6, X, 0, 0, 0), Refused(20, 2)),
            (Row(6, SWAP, 3, 1, 0), Exchange(3, 1, 12)),
            (Row(6, X, 2, 0, 0), Refused(20, 3)),
            (Row(11, X, 1, 0, 0), Refused(18, 3)),
            (Row(12, X, 3, 0, 0), Refused(20, 3)),
            (Row(12, X, 1, 0, 0), Gate(0, 13)),
        ],
        end: Clear(1, 4, 3, 13),
    },
    // the duration of each kind
    Script {
        layout: Layout {
            width: 2,
            wires: 2,
            times: Times::Uneven,
            records: b"\x01\x01\x00\x00",
            qubits: 2,
            places: &[Wire(1), Wire(0)],
            gates: &[
                Line(X, 0, 0, 0),
                Line(Y, 0, 0, 0),
                Line(Z, 0, 0, 0),
                Line(H, 0, 0, 0),
                Line(S, 0, 0, 0),
                Line(SDAG, 0, 0, 0),
                Line(T, 0, 0, 0),
                Line(TDAG, 0, 0, 0),
                Line(CNOT, 0, 1, 0),
                Line(CZ, 0, 1, 0),
                Line(CRK, 0, 1, 5),
            ],
            ..SQUARE
        },
        offers: &[
            (Row(4294966296, SWAP, 0, 1, 0), Refused(19, 0)),
            (Row(4294966295, SWAP, 0, 2, 0), Refused(16, 0)),
            (Row(4294967293, X, 1, 0, 0), Refused(19, 0)),
            (Row(4294967292, X, 0, 0, 0), Refused(20, 0)),
            (Row(4294963201, CZ, 1, 0, 0), Refused(19, 0)),
            (Row(4294963200, CZ, 1, 0, 0), Refused(20, 0)),
            (Row(4294967040, CNOT, 1, 0, 0), Refused(19, 0)),
            (Row(4294967039, CNOT, 1, 0, 0), Refused(20, 0)),
            (Row(0, X, 1, 0, 0), Gate(0, 3)),
            (Row(2, Y, 1, 0, 0), Refused(18, 1)),
            (Row(3, Y, 1, 0, 0), Gate(1, 8)),
            (Row(7, Z, 1, 0, 0), Refused(18, 2)),
            (Row(8, Z, 1, 0, 0), Gate(2, 15)),
            (Row(14, H, 1, 0, 0), Refused(18, 3)),
            (Row(15, H, 1, 0, 0), Gate(3, 26)),
            (Row(25, S, 1, 0, 0), Refused(18, 4)),
            (Row(26, S, 1, 0, 0), Gate(4, 39)),
            (Row(38, SDAG, 1, 0, 0), Refused(18, 5)),
            (Row(39, SDAG, 1, 0, 0), Gate(5, 56)),
            (Row(55, T, 1, 0, 0), Refused(18, 6)),
            (Row(56, T, 1, 0, 0), Gate(6, 75)),
            (Row(74, TDAG, 1, 0, 0), Refused(18, 7)),
            (Row(75, TDAG, 1, 0, 0), Gate(7, 98)),
            (Row(97, CNOT, 1, 0, 0), Refused(18, 8)),
            (Row(98, CNOT, 1, 0, 0), Gate(8, 354)),
            (Row(353, CZ, 1, 0, 0), Refused(18, 9)),
            (Row(354, CZ, 1, 0, 0), Gate(9, 4449)),
            (Row(4448, CRK, 1, 0, 5), Refused(18, 10)),
            (Row(4449, CRK, 1, 0, 5), Gate(10, 4478)),
            (Row(4477, SWAP, 0, 1, 0), Refused(18, 11)),
            (Row(4478, SWAP, 0, 1, 0), Exchange(0, 1, 5478)),
            (Row(5477, X, 1, 0, 0), Refused(18, 12)),
            (Row(5478, X, 1, 0, 0), Refused(20, 12)),
        ],
        end: Clear(11, 12, 1, 5478),
    },
    // a chip of one wire
    Script {
        layout: Layout {
            width: 1,
            wires: 1,
            records: b"",
            qubits: 1,
            places: &[Wire(0)],
            gates: &[Line(X, 0, 0, 0)],
            ..SQUARE
        },
        offers: &[
            (Row(0, SWAP, 0, 0, 0), Refused(16, 0)),
            (Row(0, SWAP, 0, 1, 0), Refused(16, 0)),
            (Row(0, CNOT, 0, 1, 0), Refused(16, 0)),
            (Row(0, X, 1, 0, 0), Refused(16, 0)),
            (Row(0, Y, 0, 0, 0), Refused(20, 0)),
            (Row(9, X, 0, 0, 0), Gate(0, 10)),
        ],
        end: Clear(1, 1, 0, 10),
    },
    // a gate of one kind is not taken for one of another
    Script {
        layout: Layout {
            gates: &[
                Line(X, 0, 0, 0),
                Line(S, 1, 0, 0),
                Line(T, 2, 0, 0),
                Line(TDAG, 3, 0, 0),
            ],
            ..SQUARE
        },
        offers: &[
            (Row(0, Y, 0, 0, 0), Refused(20, 0)),
            (Row(0, Z, 0, 0, 0), Refused(20, 0)),
            (Row(0, H, 0, 0, 0), Refused(20, 0)),
            (Row(0, S, 0, 0, 0), Refused(20, 0)),
            (Row(0, SDAG, 0, 0, 0), Refused(20, 0)),
            (Row(0, T, 0, 0, 0), Refused(20, 0)),
            (Row(0, TDAG, 0, 0, 0), Refused(20, 0)),
            (Row(0, CNOT, 0, 1, 0), Refused(20, 0)),
            (Row(0, CNOT, 1, 0, 0), Refused(20, 0)),
            (Row(0, SDAG, 1, 0, 0), Refused(20, 0)),
            (Row(0, TDAG, 2, 0, 0), Refused(20, 0)),
            (Row(0, T, 3, 0, 0), Refused(20, 0)),
            (Row(0, X, 0, 0, 0), Gate(0, 1)),
            (Row(0, S, 1, 0, 0), Gate(1, 1)),
            (Row(0, T, 2, 0, 0), Gate(2, 1)),
            (Row(0, TDAG, 3, 0, 0), Gate(3, 1)),
        ],
        end: Clear(4, 4, 0, 1),
    },
];
