// What the tests share.
use rows::{Gate, Logical};
use std::process::Abort;
use std::test::Fail;
use text::{Circuit, read};

// A row that no circuit has, to see that rows are left as they were.
pub(crate) const MARK: Gate = Gate {
    kind: 77,
    first: Logical(201),
    second: Logical(202),
    k: 203,
};

// The row of a gate.
pub(crate) fn gate(kind: u8, first: u8, second: u8, k: u8) -> Gate {
    Gate {
        kind,
        first: Logical(first),
        second: Logical(second),
        k,
    }
}

// All rows from `from` on are marked.
pub(crate) fn check_marked(rt: &impl Abort, rows: &[Gate], from: usize) -> Result<(), Fail> {
    for row in rows.iter().skip(from) {
        assert_eq!(rt; *row, MARK);
    }
    Ok(())
}

// The text is refused by this number at this place, and all rows stay as they were.
pub(crate) fn check_refused(
    rt: &impl Abort,
    text: &[u8],
    number: u8,
    place: usize,
) -> Result<(), Fail> {
    let mut rows = [MARK; 8];
    match read(text, &mut rows) {
        Ok(_) => Err(Fail::new("the text is read")),
        Err(fault) => {
            assert_eq!(rt; fault.number(), number);
            assert_eq!(rt; fault.place, place);
            assert_eq!(rt; fault.layer().number(), 1);
            check_marked(rt, &rows, 0)
        }
    }
}

// The text is a circuit of so many qubits, with these rows, and all further rows stay as they were.
pub(crate) fn check_read(
    rt: &impl Abort,
    text: &[u8],
    qubits: u8,
    gates: &[Gate],
) -> Result<(), Fail> {
    let mut rows = [MARK; 16];
    match read(text, &mut rows) {
        Err(_) => Err(Fail::new("the text is refused")),
        Ok(circuit) => {
            assert_eq!(rt; circuit.qubits, qubits);
            assert_eq!(rt; circuit.gates, gates.len());
            for (row, expected) in rows.iter().zip(gates.iter()) {
                assert_eq!(rt; *row, *expected);
            }
            check_marked(rt, &rows, gates.len())
        }
    }
}
