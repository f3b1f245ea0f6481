// The reply to a whole input.
ghost use Rattle.std.specs.Prelude.{◌≡◌, List, map, length, IfOk, string_bytes};
ghost use Rattle.rows.specs.Steps.{Gate, row_of_gate};
ghost use Rattle.sheet.specs.Sheets.{Log as SheetLog};
ghost use Rattle.plan.specs.Laying.{plan_in};
ghost use Rattle.book.specs.Books.{Holds};
ghost use Rattle.rows.specs.Printed.{refusal_line};
ghost use Rattle.check_text.specs.Replies.{in_order, Judged, CircuitOf, Replies};

use crate::cut::circuit_part;
use crate::error::CheckError;
use crate::print::show_answers;
use crate::steps::read_steps;
use audit::audit;
use book::Book;
use chip::ChipRecords;
use plan::{Ability, Layout};
use rows::{Gate as GateRow, Wire};
use std::alloc::{AllocError, Global};
use text::{Circuit, read};

// The first places: each qubit on the wire of its number.
fn first_places(heap: Global, qubits: u8) -> Result<Vec<Wire>, AllocError>
    ensures { IfOk result (λ v. v.items ≡ in_order qubits) }
{
    (0..qubits).map(Wire).collect(heap)
}

// Offers the steps of the input to a book.
fn judge(heap: Global, mut book: Book, input: &[u8]) -> Result<String, CheckError>
    ensures { (l : SheetLog) → Holds book l → Judged (plan_in book.plan) l input.now result }
{
    let mut trials = read_steps(heap, input)?;
    let cleared = audit(&mut book, &mut trials);
    let out = show_answers(heap, &trials, cleared)?;
    Ok(out)
}

// An input, and the chip that its steps are for.
#[derive(Clone, Copy)]
struct Case<'a> {
    chip: ChipRecords<'a>,
    input: &'a [u8],
}

impl Case<'_> {
    // Lays the input's circuit, of so many qubits and with these gates, and offers it the steps.
    fn judged(&self, heap: Global, qubits: u8, gates: &[GateRow]) -> Result<String, CheckError>
        ensures { (gs : List Gate) → gates.now ≡ map row_of_gate gs → CircuitOf self.now.input.now qubits gs → Replies self.now.chip.wires self.now.chip.bytes.now self.now.input.now result }
    {
        let places = first_places(heap, qubits)?;
        let ability = Ability::all(64);
        let layout = Layout {
            chip: self.chip,
            qubits,
            places: &places,
            gates,
        };
        match Book::lay(&ability, layout) {
            Ok(book) => judge(heap, book, self.input),
            Err(fault) => Ok(format!(in heap; "{fault}\n")?),
        }
    }

    // The reply to the input, whose circuit is read into these rows.
    fn reply(&self, heap: Global, rows: &mut [GateRow]) -> Result<String, CheckError>
        requires { length rows.old ≡ 1024 }
        ensures { Replies self.now.chip.wires self.now.chip.bytes.now self.now.input.now result }
    {
        match read(circuit_part(self.input), rows) {
            Ok(Circuit { qubits, gates }) => self.judged(heap, qubits, &rows[..gates]),
            Err(fault) => Ok(format!(in heap; "{fault}\n")?),
        }
    }
}

/// The reply to an input, on a chip as it is written: the line of the refusal of its circuit's text
/// or of the layout; the number of the first unreadable step line, as an error; or the answers to the steps, and what is counted.
pub fn reply(heap: Global, chip: ChipRecords, input: &[u8]) -> Result<String, CheckError>
    ensures { Replies chip.entry.wires chip.entry.bytes.now input.now result }
{
    // An array, not a Vec: `read` fills rows that are lent, and these need no memory that can run out.
    let mut rows = [GateRow::default(); 1024];
    Case { chip, input }.reply(heap, &mut rows)
}
