// Why the line of a step is not written.
ghost use Rattle.std.specs.Prelude.{◌≡◌, Some};
ghost use Rattle.step_text.specs.declared.error.WriteError.TheVariants.{OutOfMemory};
ghost use Rattle.step_text.specs.Errors.{error_text};

use std::alloc::AllocError;
use std::error::Error;
use std::fmt;

/// The row has no line; or memory ran out.
#[derive(Clone, Copy, Debug, PartialEq, Eq)]
pub enum WriteError {
    NoLine,
    OutOfMemory,
}

impl fmt::Display for WriteError {
    ghost output = { λ e. Some (error_text e) };

    fn fmt<W: fmt::Write>(&self, f: &mut fmt::Formatter<W>) -> fmt::Result {
        match self {
            WriteError::NoLine => write!(f, "the row has no line"),
            WriteError::OutOfMemory => write!(f, "memory allocation failed"),
        }
    }
}

impl Error for WriteError {}

impl From<AllocError> for WriteError {
    ghost from_gives = { λ _ e. e ≡ OutOfMemory };

    fn from(_error: AllocError) -> WriteError {
        Self::OutOfMemory
    }
}
