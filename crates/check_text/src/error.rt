// Why there is no reply.
ghost use Rattle.std.specs.Prelude.{◌≡◌, Some};
ghost use Rattle.check_text.specs.Errors.{error_text};
ghost use Rattle.check_text.specs.declared.error.CheckError.TheVariants.{OutOfMemory};

use std::alloc::{AllocError, AllocFailed};
use std::error::Error;
use std::fmt;

/// Memory ran out; or the line with this number should be a step and is none.
#[derive(Clone, Copy, Debug, PartialEq, Eq)]
pub enum CheckError {
    OutOfMemory,
    Unreadable(usize),
}

impl fmt::Display for CheckError {
    ghost output = { λ e. Some (error_text e) };

    fn fmt<W: fmt::Write>(&self, f: &mut fmt::Formatter<W>) -> fmt::Result {
        match self {
            CheckError::OutOfMemory => write!(f, "memory allocation failed"),
            CheckError::Unreadable(line) => write!(f, "line {line} is not a step"),
        }
    }
}

impl Error for CheckError {}

impl From<AllocError> for CheckError {
    ghost from_gives = { λ _ e. e ≡ OutOfMemory };

    fn from(_error: AllocError) -> CheckError {
        Self::OutOfMemory
    }
}

impl<T: Drop> From<AllocFailed<T>> for CheckError {
    ghost from_gives = { λ _ e. e ≡ OutOfMemory };

    fn from(failed: AllocFailed<T>) -> CheckError {
        CheckError::from(AllocError::from(failed))
    }
}
