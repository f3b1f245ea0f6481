//! Worked cases of sheets on the square chip: established from the definitions, and run.

#![tactic(auto)]

ghost use Rattle.std.specs.Prelude.{◌≡◌, MatchResult};
ghost use Rattle.sheet.specs.Sheets.{fresh};
ghost use Rattle.plan.specs.Laying.{plan_in};
ghost use Rattle.book.specs.Books.{Holds, tallied};
ghost use Rattle.book_cases.specs.Square.{plan, SquareCases};

use audit::{Trial, audit};
use book::{Book, Counts};
use chip::ChipRecords;
use plan::{Ability, Layout};
use rows::{Fault, Gate, Logical, Step, Wire};

/// The square chip: durations, then the couplings 0-1, 0-2, 1-3, 2-3.
// Written out: from the table of shipped chips it would come by its name, as an Option, and the case would rest on that table; no plainer.
const SQUARE: [u8; 64] = [
    2, 1, 1, 0, 2, 2, 1, 0, 2, 3, 1, 0, 2, 4, 1, 0, 2, 5, 1, 0, 2, 6, 1, 0, 2, 7, 1, 0, 2, 8, 1, 0,
    2, 9, 2, 0, 2, 10, 2, 0, 2, 11, 2, 0, 2, 12, 6, 0, 1, 0, 1, 0, 1, 0, 2, 0, 1, 1, 3, 0, 1, 2, 3,
    0,
];

/// t q2, cnot q0,q3 on the square chip, each qubit on the wire of its number. It is laid.
fn lay_square() -> Result<Book, Fault>
    ensures { MatchResult result (λ b. (plan_in b.plan ≡ plan) × Holds b (fresh plan)) (λ f. ⊥) }
{
    let ability = Ability::all(4);
    let places = [Wire(0), Wire(1), Wire(2), Wire(3)];
    let gates = [
        Gate {
            kind: 7,
            first: Logical(2),
            second: Logical(0),
            k: 0,
        },
        Gate {
            kind: 9,
            first: Logical(0),
            second: Logical(3),
            k: 0,
        },
    ];
    let chip = ChipRecords {
        wires: 4,
        bytes: &SQUARE,
    };
    Book::lay(
        &ability,
        Layout {
            chip,
            qubits: 4,
            places: &places,
            gates: &gates,
        },
    )
}

/// A step that is not offered yet.
// The kind is a byte, as in every step row.
fn trial(kind: u8, first: u8, second: u8, start: u32) -> Trial
    ensures { result.step ≡ record { kind = kind; first = record { 0 = first }; second = record { 0 = second }; k = 0; start = start } }
{
    Trial {
        step: Step {
            kind,
            first: Wire(first),
            second: Wire(second),
            k: 0,
            start,
        },
        answer: None,
    }
}

/// The steps 0 t 2, 0 swap 0,1 and 6 cnot 1,3, offered to that plan, are all kept, and it is clear with 2 gates, 3 steps,
/// 1 exchange and the last end 8.
pub fn work_square() -> Result<Counts, Fault>
    ensures cases { SquareCases }
    ensures counted { MatchResult result (λ c. tallied c ≡ record { gates = 2; kept = 3; exchanges = 1; last = 8 }) (λ f. ⊥) }
{
    let mut book = lay_square()?;
    let mut trials = [trial(7, 2, 0, 0), trial(12, 0, 1, 0), trial(9, 1, 3, 6)];
    audit(&mut book, &mut trials)
}
