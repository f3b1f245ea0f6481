// The parts of a chip's text.
// Loops over the wires, not chains: each line is written with `?`, and of a closure that writes to what it captures nothing is known.
// Text and chip are two parameters, not a struct: it would make each clause longer. Clauses say which bytes are added, in the library's words.
ghost use Rattle.std.specs.Prelude.{◌≡◌, ℕ, ◌<◌, ◌≤◌, ◌++◌, string_bytes, OnOk};
ghost use Rattle.rows.specs.Kinds.{coded};
ghost use Rattle.rows.specs.StepKinds.{step_code};
ghost use Rattle.chip.specs.Chips.{chart_of};
ghost use Rattle.chip_text.specs.Report.{kind_name, coupling_part, couplings_of, couplings as couplings_text, duration_line, durations as durations_text, Far, distance_line, distances as distances_text, degrees as degrees_text};

use crate::counts::{degree, distance};
use chip::Chip;
use rows::{StepKind, Wire};
use std::alloc::AllocError;
use std::fmt::Write;

/// A line for wires `a` and `b` if `a` is the lower and they are coupled.
fn coupling(out: &mut String, chip: &Chip, a: u8, b: u8) -> Result<(), AllocError>
    ensures { OnOk result (string_bytes out.new ≡ string_bytes out.old ++ coupling_part (chart_of chip.now) a b) }
{
    if a < b && chip.coupled(Wire(a), Wire(b)) {
        return writeln!(out, "coupled {a} {b}");
    }
    Ok(())
}

/// The couplings of wire `a` with higher wires, a line each.
fn couplings_of(out: &mut String, chip: &Chip, a: u8) -> Result<(), AllocError>
    ensures { OnOk result (string_bytes out.new ≡ string_bytes out.old ++ couplings_of (chart_of chip.now) a) }
{
    for b in 0..chip.wires() {
        coupling(out, chip, a, b)?;
    }
    Ok(())
}

/// All couplings, the lower wire first.
pub(crate) fn couplings(out: &mut String, chip: &Chip) -> Result<(), AllocError>
    ensures { OnOk result (string_bytes out.new ≡ string_bytes out.old ++ couplings_text (chart_of chip.now)) }
{
    for a in 0..chip.wires() {
        couplings_of(out, chip, a)?;
    }
    Ok(())
}

/// The cycles that a step of this kind lasts.
fn cycles(chip: &Chip, kind: StepKind) -> u16
    ensures { result ≡ (chart_of chip.now).cycles (step_code kind) }
{
    match kind {
        StepKind::Gate(kind) => chip.duration(kind),
        StepKind::Exchange => chip.exchange_duration(),
    }
}

/// The line of a kind's duration.
fn duration(out: &mut String, chip: &Chip, kind: StepKind) -> Result<(), AllocError>
    ensures { OnOk result (string_bytes out.new ≡ string_bytes out.old ++ duration_line (kind_name (coded (step_code kind))) ((chart_of chip.now).cycles (step_code kind))) }
{
    writeln!(out, "duration {} {}", kind.name(), cycles(chip, kind))
}

/// The durations of all kinds of steps.
pub(crate) fn durations(out: &mut String, chip: &Chip) -> Result<(), AllocError>
    ensures { OnOk result (string_bytes out.new ≡ string_bytes out.old ++ durations_text (chart_of chip.now)) }
{
    for kind in StepKind::all() {
        duration(out, chip, kind)?;
    }
    Ok(())
}

/// The line of the distances from wire `a` to each wire.
fn distances_line(out: &mut String, chip: &Chip, a: u8) -> Result<(), AllocError>
    requires { a < (chart_of chip.now).wires }
    ensures { OnOk result ((far : ℕ → ℕ → ℕ) → Far (chart_of chip.now) far → string_bytes out.new ≡ string_bytes out.old ++ distance_line (chart_of chip.now).wires far a) }
{
    write!(out, "distances")?;
    for b in 0..chip.wires() {
        let far = distance(chip, a, b);
        write!(out, " {far}")?;
    }
    writeln!(out)
}

/// The distances of every two wires, a line for each wire.
pub(crate) fn distances(out: &mut String, chip: &Chip) -> Result<(), AllocError>
    ensures { OnOk result ((far : ℕ → ℕ → ℕ) → Far (chart_of chip.now) far → string_bytes out.new ≡ string_bytes out.old ++ distances_text (chart_of chip.now).wires far) }
{
    for a in 0..chip.wires() {
        distances_line(out, chip, a)?;
    }
    Ok(())
}

/// Each wire's degree.
pub(crate) fn degrees(out: &mut String, chip: &Chip) -> Result<(), AllocError>
    ensures { OnOk result (string_bytes out.new ≡ string_bytes out.old ++ degrees_text (chart_of chip.now)) }
{
    for a in 0..chip.wires() {
        let count = degree(chip, a);
        writeln!(out, "degree {a} {count}")?;
    }
    Ok(())
}
