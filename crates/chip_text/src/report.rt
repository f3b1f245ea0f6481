// The whole text for an input.
ghost use Rattle.std.specs.Prelude.{◌≡◌, ℕ, IfOk, string_bytes};
ghost use Rattle.chip.specs.Chips.{chart_of};
ghost use Rattle.chip_text.specs.Report.{Far, chip_text, Text, Printed};

use crate::counts::diameter;
use crate::sections::{couplings, degrees, distances, durations};
use chip::{Chip, ChipRecords};
use std::alloc::{AllocError, Global};
use std::fmt::Write;

/// The text of a chip.
fn describe(heap: Global, chip: &Chip) -> Result<String, AllocError>
    ensures { IfOk result (λ t. (far : ℕ → ℕ → ℕ) → Far (chart_of chip.now) far → string_bytes t ≡ chip_text (chart_of chip.now) far) }
{
    let mut out = String::new(heap);
    let wires = chip.wires();
    writeln!(out, "wires {wires}")?;
    couplings(&mut out, chip)?;
    durations(&mut out, chip)?;
    distances(&mut out, chip)?;
    let most = diameter(chip);
    writeln!(out, "diameter {most}")?;
    degrees(&mut out, chip)?;
    Ok(out)
}

/// The text for a chip as it is written.
fn report_of(heap: Global, records: ChipRecords) -> Result<String, AllocError>
    ensures { IfOk result (λ t. Text records.entry.wires records.entry.bytes.now (string_bytes t)) }
{
    match Chip::new(records) {
        Ok(chip) => describe(heap, &chip),
        Err(fault) => format!(in heap; "{fault}\n"),
    }
}

/// The text for an input: its first byte is the number of wires, 0 if the input is empty; the others are the records.
pub fn report(heap: Global, input: &[u8]) -> Result<String, AllocError>
    ensures { IfOk result (λ t. Printed input.now (string_bytes t)) }
{
    match input {
        [] => report_of(
            heap,
            ChipRecords {
                wires: 0,
                bytes: &[],
            },
        ),
        [wires, bytes @ ..] => report_of(
            heap,
            ChipRecords {
                wires: *wires,
                bytes,
            },
        ),
    }
}
