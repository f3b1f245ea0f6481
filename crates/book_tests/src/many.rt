// As many gates, and as many wires and qubits, as fit.
use crate::sheets::Answer::{Clear, Exchange, Gate, Refused};
use crate::sheets::*;
use crate::tools::{check_offers, cleared, gate_of, judged, lay_rows, step_of};
use book::Book;
use chip::ChipRecords;
use plan::Ability;
use rows::{Gate as GateRow, Wire};
use std::alloc::{AllocError, Global};
use std::process::Abort;
use std::test::Fail;

/// So many rows: row `bad` of kind 13, the others `x q0`.
fn rows_but(heap: Global, count: usize, bad: usize) -> Result<Vec<GateRow>, AllocError> {
    (0..count)
        .map(|i| if i == bad { 13 } else { X })
        .map(|kind| gate_of(Line(kind, 0, 0, 0)))
        .collect(heap)
}

/// How many rows, which is bad, and the place of the refusal.
pub static TOO_MANY: [(usize, usize, usize); 7] = [
    (1, 0, 0),
    (1024, 1023, 1023),
    (1025, 9999, 1024),
    (1025, 1024, 1024),
    (1025, 1023, 1023),
    (1025, 3, 3),
    (2000, 1500, 1024),
];

#[test]
fn bad_and_too_many_rows(rt: HostRuntime) -> Result<(), Fail> {
    for (count, bad, place) in TOO_MANY.iter() {
        let rows = rows_but(rt.alloc(), *count, *bad)?;
        match lay_rows(rt.alloc(), &SQUARE, &rows)? {
            Ok(_) => return Err(Fail::new("laid")),
            Err(fault) => {
                assert_eq!(rt; fault.number(), 12);
                assert_eq!(rt; fault.place, *place);
            }
        }
    }
    Ok(())
}

/// Does all gates of a circuit of 1,024 times `x q0`.
fn check_all_done(rt: &impl Abort, book: &mut Book) -> Result<(), Fail> {
    for i in 0..1024u32 {
        let step = step_of(Row(i, X, 0, 0, 0));
        assert_eq!(rt; book.is_open(i as usize), Some(true));
        assert_eq!(rt; book.lowest_open(), Some(i as usize));
        assert_eq!(rt; judged(book, step), Gate(i as usize, i + 1));
        let _ = book.keep(step)?;
    }
    Ok(())
}

#[test]
fn as_many_gates_as_fit(rt: HostRuntime) -> Result<(), Fail> {
    let rows = rows_but(rt.alloc(), 1024, 9999)?;
    let mut book = lay_rows(rt.alloc(), &SQUARE, &rows)??;
    check_all_done(&rt, &mut book)?;
    assert_eq!(rt; book.is_open(1023), Some(false));
    assert_eq!(rt; book.is_open(1024), None);
    assert_eq!(rt;
        judged(&book, step_of(Row(1024, X, 0, 0, 0))),
        Refused(20, 1024)
    );
    assert_eq!(rt; cleared(&book), Clear(1024, 1024, 0, 1024));
    Ok(())
}

/// Offers on the line of 64 wires with qubit 63 - w on wire w.
pub static WIDE: [(Row, Answer); 13] = [
    (Row(0, X, 64, 0, 0), Refused(16, 0)),
    (Row(0, SWAP, 63, 64, 0), Refused(16, 0)),
    (Row(0, SWAP, 0, 63, 0), Refused(17, 0)),
    (Row(0, X, 32, 0, 0), Refused(20, 0)),
    (Row(0, CNOT, 62, 63, 0), Refused(20, 0)),
    (Row(0, SWAP, 32, 31, 0), Exchange(32, 31, 6)),
    (Row(6, X, 31, 0, 0), Refused(20, 1)),
    (Row(5, X, 32, 0, 0), Refused(18, 1)),
    (Row(6, X, 32, 0, 0), Gate(2, 7)),
    (Row(0, CNOT, 63, 62, 0), Gate(0, 2)),
    (Row(1, CZ, 63, 62, 0), Refused(18, 3)),
    (Row(0, CZ, 0, 1, 0), Gate(1, 2)),
    (Row(2, X, 63, 0, 0), Refused(20, 4)),
];

/// The records of a line of 64 wires, and its wires from the last to the first.
fn line_of_64(heap: Global) -> Result<(Vec<u8>, Vec<Wire>), AllocError> {
    let mut bytes = Vec::new(heap);
    bytes.extend_from_slice(EVEN)?;
    for i in 0..63 {
        bytes.extend_from_slice(&[1, i, i + 1, 0])?;
    }
    let places = (0..64).rev().map(Wire).collect(heap)?;
    Ok((bytes, places))
}

#[test]
fn as_many_wires_as_fit(rt: HostRuntime) -> Result<(), Fail> {
    let (bytes, places) = line_of_64(rt.alloc())?;
    let gates = [
        gate_of(Line(CNOT, 0, 1, 0)),
        gate_of(Line(CZ, 63, 62, 0)),
        gate_of(Line(X, 32, 0, 0)),
    ];
    let chip = ChipRecords {
        wires: 64,
        bytes: &bytes,
    };
    let mut book = Book::lay(
        &Ability::all(64),
        plan::Layout {
            chip,
            qubits: 64,
            places: &places,
            gates: &gates,
        },
    )?;
    check_offers(&rt, rt.alloc(), &mut book, &WIDE)?;
    assert_eq!(rt; cleared(&book), Clear(3, 4, 1, 7));
    Ok(())
}
