// All steps of a list, and then clearing.
ghost use Rattle.std.specs.Prelude.{◌≡◌};
ghost use contract.Monad.{fact};
ghost use Rattle.sheet.specs.Sheets.{Log as SheetLog};
ghost use Rattle.plan.specs.Laying.{plan_in};
ghost use Rattle.book.specs.Books.{Holds};
ghost use Rattle.audit.specs.Audits.{AnswersOne, Plays, Clears, Audited};

use crate::trial::Trial;
use book::{Book, Counts};
use rows::{Fault, Step};

/// Offers one step. Answers why it was refused; none if it was kept.
fn offer(book: &mut Book, step: Step) -> Option<Fault>
    ensures plan { book.new.plan ≡ book.old.plan }
    ensures answers { (l : SheetLog) → Holds book.old l →
        (m : SheetLog) × AnswersOne (plan_in book.old.plan) l step result m × Holds book.new m }
{
    book.keep(step).err()
}

// Book and trials are two parameters, not a struct: both are lent to the public call, whose clauses this function and `play` share.
/// Offers all steps in turn, each kept or refused.
fn offer_all(book: &mut Book, trials: &mut [Trial])
    ensures plays { Plays book.old trials.old book.new trials.new }
{
    for trial in trials.iter_mut() {
        trial.answer = offer(book, trial.step);
    }
}

/// Offers all steps in turn, and then clears.
fn play(book: &mut Book, trials: &mut [Trial]) -> Result<Counts, Fault>
    ensures plays { Plays book.old trials.old book.new trials.new }
    ensures clears { (l : SheetLog) → Holds book.new l → Clears (plan_in book.old.plan) l result }
{
    offer_all(book, trials);
    book.clear()
}

/// Offers all steps in turn, each kept or refused, and then clears: the counts, or the refusal at the lowest open gate.
/// The last clause says what the answers are worth on every lawful machine.
pub fn audit(book: &mut Book, trials: &mut [Trial]) -> Result<Counts, Fault>
    ensures plays { Plays book.old trials.old book.new trials.new }
    ensures clears { (l : SheetLog) → Holds book.new l → Clears (plan_in book.old.plan) l result }
    ensures* worth { fact 𝓤 (Audited book.old trials.old book.new trials.new result) }
{
    play(book, trials)
}
