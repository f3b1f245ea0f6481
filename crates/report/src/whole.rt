// The report on a whole text.
ghost use Rattle.std.specs.Prelude.{◌≡◌, ◌≤◌, length, IfOk, string_bytes};
ghost use Rattle.report.specs.Report.{Reports};

use crate::count::Listed;
use rows::Gate as GateRow;
use std::alloc::{AllocError, Global};
use text::{Circuit, read};

// A longer text is not read.
const LIMIT: usize = 65536;

// What is printed of a text that is not too long, read into these rows.
fn report_with(heap: Global, text: &[u8], rows: &mut [GateRow]) -> Result<String, AllocError>
    requires short { length text.now ≤ 65536 }
    requires many { length rows.old ≡ 1024 }
    ensures { IfOk result (λ s. Reports text.now (string_bytes s)) }
{
    match read(text, rows) {
        Ok(Circuit { qubits, gates }) => {
            let rows = &rows[0..gates];
            Listed { rows, qubits }.show(heap)
        }
        Err(fault) => format!(in heap; "{fault}\n"),
    }
}

/// What is printed of a circuit's text: the report on its circuit, or the line of its refusal.
pub fn report(heap: Global, text: &[u8]) -> Result<String, AllocError>
    ensures { IfOk result (λ s. Reports text.now (string_bytes s)) }
{
    if text.len() > LIMIT {
        return String::from_str(heap, "too long\n");
    }
    // An array, not a Vec: `read` fills rows that are lent, and these need no memory that can run out.
    let mut rows = [GateRow::default(); 1024];
    report_with(heap, text, &mut rows)
}
