// The book of a laid plan.
ghost use Rattle.std.specs.Prelude.{◌≡◌};
ghost use Rattle.sheet.specs.Sheets.{Log as SheetLog};
ghost use Rattle.plan.specs.Laying.{plan_in};
ghost use Rattle.book.specs.Agreeing.{Agrees};

mod check;
mod keep;
mod look;

use crate::log::Log;
use plan::Plan;

/// A laid plan and the log of what is done. It agrees with a sheet that an operator could have kept.
// Clauses speak of every sheet that the book holds, and there is no model: the book does not keep the list of steps, so its value does not
// give the sheet.
#[derive(Clone, Copy)]
pub struct Book {
    plan: Plan,
    log: Log,
    ghost wires: { log.places.wires ≡ plan.first.wires },
    ghost qubits: { log.places.qubits ≡ plan.first.qubits },
    ghost agrees: { ∥ ((l : SheetLog) × Agrees (plan_in plan) log l) ∥₁ },
}
