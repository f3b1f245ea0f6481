// The lines of the answers. Each clause says which bytes are added, in the library's words.
ghost use Rattle.std.specs.Prelude.{◌≡◌, ◌++◌, IfOk, string_bytes, OnOk};
ghost use Rattle.std.specs.List.{flat_map};
ghost use Rattle.check_text.specs.Answers.{answer_line, trial_line, last_line, answers_text};

use audit::Trial;
use book::Counts;
use rows::Fault;
use std::alloc::{AllocError, Global};
use step_text::write_refusal;

// Adds the line of one answer.
fn add_answer(out: &mut String, answer: Option<Fault>) -> Result<(), AllocError>
    ensures { OnOk result (string_bytes out.new ≡ string_bytes out.old ++ answer_line answer) }
{
    match answer {
        Some(fault) => write_refusal(out, fault),
        None => out.push_str("kept\n"),
    }
}

// Adds the line of each answer.
fn add_answers(out: &mut String, trials: &[Trial]) -> Result<(), AllocError>
    ensures { OnOk result (string_bytes out.new ≡ string_bytes out.old ++ flat_map trial_line trials.now) }
{
    for trial in trials {
        add_answer(out, trial.answer)?;
    }
    Ok(())
}

// Not a Display of `Counts`: the line is that of this program, and a book prints nothing.
// Adds the last line: what is counted, or the lowest open gate.
fn add_last(out: &mut String, cleared: Result<Counts, Fault>) -> Result<(), AllocError>
    ensures { OnOk result (string_bytes out.new ≡ string_bytes out.old ++ last_line cleared) }
{
    match cleared {
        Ok(counts) => writeln!(
            out,
            "gates {} steps {} exchanges {} end {}",
            counts.gates, counts.kept, counts.exchanges, counts.last
        ),
        Err(fault) => writeln!(out, "open {}", fault.place),
    }
}

/// The line of each answer, and then what is counted or, where a gate is open, the lowest such gate.
pub fn show_answers(
    heap: Global,
    trials: &[Trial],
    cleared: Result<Counts, Fault>,
) -> Result<String, AllocError>
    ensures { IfOk result (λ s. string_bytes s ≡ answers_text trials.now cleared) }
{
    let mut out = String::new(heap);
    add_answers(&mut out, trials)?;
    add_last(&mut out, cleared)?;
    Ok(out)
}
