// The lines of steps and refusals, added to a text. Each clause says which bytes are added, in the library's words.
ghost use Rattle.std.specs.Prelude.{◌≡◌, ◌↔◌, ◌++◌, string_bytes, codes, IsErrOf, MatchOption, OnOk};
ghost use Rattle.rows.specs.Printed.{refusal_line};
ghost use Rattle.rows.specs.StepKinds.{step_code};
ghost use Rattle.step_text.specs.StepLines.{part, step_line, Plain};

use crate::error::WriteError;
use rows::{Fault, Step, StepKind};
use std::alloc::AllocError;

// The kind of a row that has a line.
fn plain_kind(step: Step) -> Option<StepKind>
    ensures { MatchOption result (¬ Plain step) (λ κ. Plain step × (step_code κ ≡ step.kind)) }
{
    let kind = StepKind::try_from(step.kind).ok()?;
    if !kind.is_double() && step.second.0 != 0 {
        return None;
    }
    if !kind.has_k() && step.k != 0 {
        return None;
    }
    Some(kind)
}

// Adds a comma and the number, if it is to be written.
fn add_part(out: &mut String, written: bool, n: u8) -> Result<(), AllocError>
    ensures { OnOk result (string_bytes out.new ≡ string_bytes out.old ++ part written n) }
{
    if written { write!(out, ",{n}") } else { Ok(()) }
}

// Adds the line of a row, whose kind is given.
fn add_line(out: &mut String, kind: StepKind, step: Step) -> Result<(), AllocError>
    requires { step_code kind ≡ step.kind }
    ensures { OnOk result (string_bytes out.new ≡ string_bytes out.old ++ (step_line step ++ codes "\n")) }
{
    write!(out, "{} {} {}", step.start, kind.name(), step.first.0)?;
    add_part(out, kind.is_double(), step.second.0)?;
    add_part(out, kind.has_k(), step.k)?;
    out.push_str("\n")
}

/// Adds the line of a row and a newline; where the row has no line, adds nothing.
pub fn write_step(out: &mut String, step: Step) -> Result<(), WriteError>
    ensures written { OnOk result (Plain step × (string_bytes out.new ≡ string_bytes out.old ++ (step_line step ++ codes "\n"))) }
    ensures no_line { IsErrOf result WriteError.NoLine ↔ ¬ Plain step }
    ensures unchanged { ¬ Plain step → string_bytes out.new ≡ string_bytes out.old }
{
    let kind = plain_kind(step).ok_or(WriteError::NoLine)?;
    add_line(out, kind, step)?;
    Ok(())
}

/// Adds the line of a refusal: its number and its place.
pub fn write_refusal(out: &mut String, fault: Fault) -> Result<(), AllocError>
    ensures { OnOk result (string_bytes out.new ≡ string_bytes out.old ++ refusal_line fault) }
{
    writeln!(out, "{fault}")
}
