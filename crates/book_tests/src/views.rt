// What a book shows before and after steps.
use crate::sheets::Answer::{Clear, Exchange, Gate, Refused};
use crate::sheets::*;
use crate::tools::{check_offers, cleared, lay, looks_of};
use book::Book;
use rows::{Logical, Wire};
use std::alloc::Global;
use std::process::Abort;
use std::test::Fail;

/// Steps offered in turn, and what the book shows then of the numbers 0 to 6, of the lowest open gate, and by clearing.
#[derive(Clone, Copy)]
pub struct Stage {
    pub offers: &'static [(Row, Answer)],
    pub looks: &'static [Look],
    pub lowest: Option<usize>,
    pub end: Answer,
}

/// The line of six wires with other gates: `cnot q0,q2`, `h q2`, `x q1`.
pub static STAGED: Layout = Layout {
    gates: &[Line(CNOT, 0, 2, 0), Line(H, 2, 0, 0), Line(X, 1, 0, 0)],
    ..LINE
};

/// Stages on that line.
pub static STAGES: [Stage; 6] = [
    // as laid
    Stage {
        offers: &[],
        looks: &[
            Look(Some(Wire(2)), Some(Wire(2)), None, Some(0), Some(true)),
            Look(
                Some(Wire(1)),
                Some(Wire(1)),
                Some(Logical(1)),
                Some(0),
                Some(true),
            ),
            Look(
                Some(Wire(4)),
                Some(Wire(4)),
                Some(Logical(0)),
                Some(0),
                Some(true),
            ),
            Look(None, None, None, Some(0), None),
            Look(None, None, Some(Logical(2)), Some(0), None),
            Look(None, None, None, Some(0), None),
            Look(None, None, None, None, None),
        ],
        lowest: Some(0),
        end: Refused(23, 0),
    },
    // qubit 0 and an empty wire are exchanged
    Stage {
        offers: &[(Row(0, SWAP, 2, 3, 0), Exchange(2, 3, 6))],
        looks: &[
            Look(Some(Wire(2)), Some(Wire(3)), None, Some(0), Some(true)),
            Look(
                Some(Wire(1)),
                Some(Wire(1)),
                Some(Logical(1)),
                Some(0),
                Some(true),
            ),
            Look(Some(Wire(4)), Some(Wire(4)), None, Some(6), Some(true)),
            Look(None, None, Some(Logical(0)), Some(6), None),
            Look(None, None, Some(Logical(2)), Some(0), None),
            Look(None, None, None, Some(0), None),
            Look(None, None, None, None, None),
        ],
        lowest: Some(0),
        end: Refused(23, 0),
    },
    // qubits 2 and 0 are exchanged
    Stage {
        offers: &[
            (Row(9, SWAP, 4, 3, 0), Exchange(4, 3, 15)),
            (Row(14, SWAP, 4, 5, 0), Refused(18, 2)),
            (Row(15, CNOT, 3, 4, 0), Refused(20, 2)),
        ],
        looks: &[
            Look(Some(Wire(2)), Some(Wire(4)), None, Some(0), Some(true)),
            Look(
                Some(Wire(1)),
                Some(Wire(1)),
                Some(Logical(1)),
                Some(0),
                Some(true),
            ),
            Look(Some(Wire(4)), Some(Wire(3)), None, Some(6), Some(true)),
            Look(None, None, Some(Logical(2)), Some(15), None),
            Look(None, None, Some(Logical(0)), Some(15), None),
            Look(None, None, None, Some(0), None),
            Look(None, None, None, None, None),
        ],
        lowest: Some(0),
        end: Refused(23, 0),
    },
    // qubit 1 leaves wire 1, and then two empty wires are exchanged
    Stage {
        offers: &[
            (Row(0, SWAP, 0, 1, 0), Exchange(0, 1, 6)),
            (Row(5, SWAP, 1, 2, 0), Refused(18, 3)),
            (Row(6, SWAP, 1, 2, 0), Exchange(1, 2, 12)),
        ],
        looks: &[
            Look(
                Some(Wire(2)),
                Some(Wire(4)),
                Some(Logical(1)),
                Some(6),
                Some(true),
            ),
            Look(Some(Wire(1)), Some(Wire(0)), None, Some(12), Some(true)),
            Look(Some(Wire(4)), Some(Wire(3)), None, Some(12), Some(true)),
            Look(None, None, Some(Logical(2)), Some(15), None),
            Look(None, None, Some(Logical(0)), Some(15), None),
            Look(None, None, None, Some(0), None),
            Look(None, None, None, None, None),
        ],
        lowest: Some(0),
        end: Refused(23, 0),
    },
    // gates 0 and 2 are done
    Stage {
        offers: &[
            (Row(15, CNOT, 4, 3, 0), Gate(0, 17)),
            (Row(6, X, 0, 0, 0), Gate(2, 7)),
        ],
        looks: &[
            Look(
                Some(Wire(2)),
                Some(Wire(4)),
                Some(Logical(1)),
                Some(7),
                Some(false),
            ),
            Look(Some(Wire(1)), Some(Wire(0)), None, Some(12), Some(true)),
            Look(Some(Wire(4)), Some(Wire(3)), None, Some(12), Some(false)),
            Look(None, None, Some(Logical(2)), Some(17), None),
            Look(None, None, Some(Logical(0)), Some(17), None),
            Look(None, None, None, Some(0), None),
            Look(None, None, None, None, None),
        ],
        lowest: Some(1),
        end: Refused(23, 1),
    },
    // all gates are done
    Stage {
        offers: &[
            (Row(17, H, 4, 0, 0), Refused(20, 6)),
            (Row(17, H, 3, 0, 0), Gate(1, 18)),
        ],
        looks: &[
            Look(
                Some(Wire(2)),
                Some(Wire(4)),
                Some(Logical(1)),
                Some(7),
                Some(false),
            ),
            Look(Some(Wire(1)), Some(Wire(0)), None, Some(12), Some(false)),
            Look(Some(Wire(4)), Some(Wire(3)), None, Some(12), Some(false)),
            Look(None, None, Some(Logical(2)), Some(18), None),
            Look(None, None, Some(Logical(0)), Some(17), None),
            Look(None, None, None, Some(0), None),
            Look(None, None, None, None, None),
        ],
        lowest: None,
        end: Clear(3, 7, 4, 18),
    },
];

fn check_stage(
    rt: &impl Abort,
    heap: Global,
    n: usize,
    book: &mut Book,
    stage: &Stage,
) -> Result<(), Fail> {
    check_offers(rt, heap, book, stage.offers)?;
    assert!(rt;
        looks_of(heap, book, 7)?.as_slice() == stage.looks,
        "stage {n}"
    );
    assert_eq!(rt; book.lowest_open(), stage.lowest, "stage {n}");
    assert_eq!(rt; cleared(book), stage.end, "stage {n}");
    Ok(())
}

#[test]
fn stages(rt: HostRuntime) -> Result<(), Fail> {
    let mut book = lay(rt.alloc(), &STAGED)?;
    for (n, stage) in STAGES.iter().enumerate() {
        check_stage(&rt, rt.alloc(), n, &mut book, stage)?;
    }
    Ok(())
}
