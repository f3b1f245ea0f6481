// What the tests share: laying, offering a step, and what a book shows.
use crate::sheets::{Answer, ELEVEN, EVEN, Layout, Line, Look, Row, Times, UNEVEN};
use book::{Book, Turn};
use chip::ChipRecords;
use plan::Ability;
use rows::{Fault, Gate, Kind, Logical, Step, Wire};
use std::alloc::{AllocError, Global};
use std::process::Abort;
use std::test::Fail;

/// A machine of so many wires that knows these kinds; every kind for none.
fn ability_of(width: u8, kinds: Option<&[u8]>) -> Ability {
    let Some(numbers) = kinds else {
        return Ability::all(width);
    };
    let mut ability = Ability::none(width);
    for number in numbers {
        if let Ok(kind) = Kind::try_from(*number) {
            ability.learn(kind);
        }
    }
    ability
}

/// The gate row of a line.
pub(crate) fn gate_of(line: Line) -> Gate {
    Gate {
        kind: line.0,
        first: Logical(line.1),
        second: Logical(line.2),
        k: line.3,
    }
}

/// The gate rows of the lines.
fn gates_of(heap: Global, lines: &[Line]) -> Result<Vec<Gate>, AllocError> {
    lines.iter().map(|line| gate_of(*line)).collect(heap)
}

/// The records of `times` and then those of `records`.
fn bytes_of(heap: Global, times: Times, records: &[u8]) -> Result<Vec<u8>, AllocError> {
    let mut bytes = Vec::new(heap);
    match times {
        Times::Absent => {}
        Times::Even => bytes.extend_from_slice(EVEN)?,
        Times::Eleven => bytes.extend_from_slice(ELEVEN)?,
        Times::Uneven => bytes.extend_from_slice(UNEVEN)?,
    }
    bytes.extend_from_slice(records)?;
    Ok(bytes)
}

/// The book of a layout with these records and these rows for its gates, or why it is refused.
fn lay_on<'a>(layout: &Layout, chip: ChipRecords<'a>, gates: &'a [Gate]) -> Result<Book, Fault> {
    let ability = ability_of(layout.width, layout.kinds);
    Book::lay(
        &ability,
        plan::Layout {
            chip,
            qubits: layout.qubits,
            places: layout.places,
            gates,
        },
    )
}

/// The book of a layout with these rows for its gates, or why it is refused.
pub(crate) fn lay_rows(
    heap: Global,
    layout: &Layout,
    gates: &[Gate],
) -> Result<Result<Book, Fault>, AllocError> {
    let bytes = bytes_of(heap, layout.times, layout.records)?;
    let chip = ChipRecords {
        wires: layout.wires,
        bytes: &bytes,
    };
    Ok(lay_on(layout, chip, gates))
}

/// The book of a layout, or why it is refused.
pub(crate) fn try_lay(heap: Global, layout: &Layout) -> Result<Result<Book, Fault>, AllocError> {
    let gates = gates_of(heap, layout.gates)?;
    lay_rows(heap, layout, &gates)
}

/// The book of a good layout.
pub(crate) fn lay(heap: Global, layout: &Layout) -> Result<Book, Fail> {
    Ok(try_lay(heap, layout)??)
}

/// The step of a row.
pub(crate) fn step_of(row: Row) -> Step {
    Step {
        kind: row.1,
        first: Wire(row.2),
        second: Wire(row.3),
        k: row.4,
        start: row.0,
    }
}

/// The book's verdict on a step.
pub(crate) fn judged(book: &Book, step: Step) -> Answer {
    match book.check(step) {
        Ok(verdict) => match verdict.turn {
            Turn::Gate(i) => Answer::Gate(i, verdict.end),
            Turn::Exchange(a, b) => Answer::Exchange(a.0, b.0, verdict.end),
        },
        Err(fault) => Answer::Refused(fault.number(), fault.place),
    }
}

/// What clearing gets.
pub(crate) fn cleared(book: &Book) -> Answer {
    match book.clear() {
        Ok(counts) => Answer::Clear(counts.gates, counts.kept, counts.exchanges, counts.last),
        Err(fault) => Answer::Refused(fault.number(), fault.place),
    }
}

/// What the book shows of qubit, wire and gate n.
fn look(book: &Book, n: u8) -> Look {
    Look(
        book.first_wire_of(Logical(n)),
        book.wire_of(Logical(n)),
        book.qubit_on(Wire(n)),
        book.free_from(Wire(n)),
        book.is_open(n as usize),
    )
}

/// What the book shows of the numbers below `count`.
pub(crate) fn looks_of(heap: Global, book: &Book, count: u8) -> Result<Vec<Look>, AllocError> {
    (0..count).map(|n| look(book, n)).collect(heap)
}

/// The verdicts on all rows of a table.
fn verdicts_of(
    heap: Global,
    book: &Book,
    offers: &[(Row, Answer)],
) -> Result<Vec<Answer>, AllocError> {
    offers
        .iter()
        .map(|(row, _)| judged(book, step_of(*row)))
        .collect(heap)
}

/// A step that is refused: by the same number at the same place as its verdict, and all that the book shows is as before,
/// the verdicts on all steps of the table too.
fn check_refused(
    rt: &impl Abort,
    heap: Global,
    book: &mut Book,
    step: Step,
    answer: Answer,
    offers: &[(Row, Answer)],
) -> Result<(), Fail> {
    let end = cleared(book);
    let looks = looks_of(heap, book, 255)?;
    let verdicts = verdicts_of(heap, book, offers)?;
    match book.keep(step) {
        Ok(_) => return Err(Fail::new("kept, and it was to be refused")),
        Err(fault) => assert_eq!(rt; Answer::Refused(fault.number(), fault.place), answer),
    }
    assert_eq!(rt; cleared(book), end);
    assert!(rt; looks_of(heap, book, 255)?.as_slice() == looks.as_slice());
    assert!(rt; verdicts_of(heap, book, offers)?.as_slice() == verdicts.as_slice());
    Ok(())
}

/// A step that is kept: its verdict and its keeping name the action that the step writes.
fn check_kept(rt: &impl Abort, book: &mut Book, step: Step) -> Result<(), Fail> {
    let verdict = book.check(step)?;
    assert_eq!(rt; verdict.action.row(step.start), step);
    let action = book.keep(step)?;
    assert_eq!(rt; action.row(step.start), step);
    Ok(())
}

/// Offers a step, and sees that it gets this answer.
pub(crate) fn check_offer(
    rt: &impl Abort,
    heap: Global,
    book: &mut Book,
    row: Row,
    answer: Answer,
    offers: &[(Row, Answer)],
) -> Result<(), Fail> {
    let step = step_of(row);
    let Row(start, kind, first, second, k) = row;
    assert_eq!(rt;
        judged(book, step),
        answer,
        "start {start}, kind {kind}, wires {first} {second}, k {k}"
    );
    if let Answer::Refused(_, _) = answer {
        check_refused(rt, heap, book, step, answer, offers)
    } else {
        check_kept(rt, book, step)
    }
}

/// Offers all steps of a table in turn.
pub(crate) fn check_offers(
    rt: &impl Abort,
    heap: Global,
    book: &mut Book,
    offers: &[(Row, Answer)],
) -> Result<(), Fail> {
    for (row, answer) in offers {
        check_offer(rt, heap, book, *row, *answer, offers)?;
    }
    Ok(())
}
