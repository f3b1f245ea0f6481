// The statements of a text, one after the other: each a line with its number and its first token.
ghost use Rattle.std.specs.Prelude.{◌≡◌, ℕ, ◌+◌, ◌^◌, ◌<◌, true, false, List, length, MatchOption};
ghost use Rattle.lines.specs.Tokens.{Fronts};
ghost use Rattle.text.specs.Reading.{skipped};

use crate::cutting::first_line;
use lines::{Token, front};

/// A line that is neither empty nor a comment: its number in the text, its bytes, and the token at its front.
#[derive(Clone, Copy)]
pub struct Word<'a> {
    pub line: usize,
    pub bytes: &'a [u8],
    pub token: Token<'a>,
}

/// The part of a text that is still to be read, and how many lines come before it.
#[derive(Drop)]
pub struct Lexer<'a> {
    rest: &'a [u8],
    passed: usize,
    ghost countable: { passed + length rest.now < 2 ^ 64 },
}

// The token at the front of a line that is not skipped.
fn first_token(line: &[u8]) -> Option<Token<'_>>
    ensures { MatchOption result (skipped line.now ≡ true)
        (λ t. (skipped line.now ≡ false) × ((after : List ℕ) × Fronts line.now t after)) }
{
    let (token, _) = front(line)?;
    if let Token::Comment(_) = token {
        return None;
    }
    Some(token)
}

impl<'a> Lexer<'a> {
    /// All of a text.
    pub fn new(text: &'a [u8]) -> Lexer<'a>
        ensures { (result.rest.now ≡ text.now) × (result.passed ≡ 0) }
    {
        Lexer {
            rest: text,
            passed: 0,
        }
    }
}

impl<'a> Iterator for Lexer<'a> {
    ghost use Rattle.std.specs.Iterator.{at_most};
    ghost use Rattle.text.specs.Lexing.{Lexes};

    type Item = Word<'a>;

    ghost next_gives = { Lexes };

    ghost remaining = { λ s. at_most (length s.rest.now) };

    /// The next statement, if there is one more; else all of the text is passed.
    fn next(&mut self) -> Option<Word<'a>> {
        // A loop, not `find` over lines: how many lines are passed is kept with what is left.
        while !self.rest.is_empty() {
            let (line, after) = first_line(self.rest);
            self.rest = after;
            self.passed += 1;
            if let Some(token) = first_token(line) {
                return Some(Word {
                    line: self.passed,
                    bytes: line,
                    token,
                });
            }
        }
        None
    }
}
