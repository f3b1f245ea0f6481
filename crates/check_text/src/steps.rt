// The steps of the lines after the line `steps`.
ghost use Rattle.text.specs.Lexing.{left};
ghost use Rattle.check_text.specs.Stepping.{AfterSteps, ReadsAll, ReadsSteps};

use crate::cut::is_steps;
use crate::error::CheckError;
use audit::Trial;
use std::alloc::Global;
use step_text::step_of;
use text::Lexer;

// Passes all statements up to the first that is `steps`.
fn find_steps(lexer: &mut Lexer)
    ensures { AfterSteps (left lexer.old) (left lexer.new) }
{
    lexer.find(|word| is_steps(word.bytes));
}

// The steps of the statements that are left.
fn read_all(heap: Global, lexer: Lexer) -> Result<Vec<Trial>, CheckError>
    ensures { ReadsAll (left lexer.entry) result }
{
    let mut trials = Vec::new(heap);
    for word in lexer {
        let step = step_of(word.bytes).ok_or(CheckError::Unreadable(word.line))?;
        trials.push(Trial { step, answer: None })?;
    }
    Ok(trials)
}

/// The steps that the lines after the first line that is `steps` write, each not offered yet, none where no line is; or the number of
/// the first of these lines that writes none. Empty lines and comments are passed over, and lines count from 1 in the whole input.
pub fn read_steps(heap: Global, input: &[u8]) -> Result<Vec<Trial>, CheckError>
    ensures { ReadsSteps input.now result }
{
    let mut lexer = Lexer::new(input);
    find_steps(&mut lexer);
    read_all(heap, lexer)
}
