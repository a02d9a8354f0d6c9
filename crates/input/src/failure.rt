// What keeps a program from printing its answer.
ghost use Rattle.input.specs.declared.error.InputError.TheVariants.{Memory};
ghost use Rattle.input.specs.declared.failure.Failure.TheVariants.{Input};
ghost use Rattle.std.specs.Prelude.{◌≡◌};

use crate::error::InputError;
use std::alloc::AllocError;
use std::{fmt, io};

#[derive(Debug, Drop)]
pub enum Failure {
    // There is another number of arguments than the program takes: what to give.
    Usage(&'static str),
    // The arguments or the input cannot be read, or there is no memory.
    Input(InputError),
    // Standard output cannot be written.
    Unwritable(io::Error),
}

impl From<AllocError> for Failure {
    ghost from_gives = { λ _ r. r ≡ Input Memory };

    fn from(error: AllocError) -> Failure {
        Failure::Input(error.into())
    }
}

impl From<InputError> for Failure {
    ghost from_gives = { λ e r. r ≡ Input e };

    fn from(error: InputError) -> Failure {
        Failure::Input(error)
    }
}

// What is told on standard error.
impl fmt::Display for Failure {
    fn fmt<W: fmt::Write>(&self, f: &mut fmt::Formatter<W>) -> fmt::Result {
        match self {
            Failure::Usage(usage) => write!(f, "{usage}"),
            Failure::Input(cause) => write!(f, "{cause}"),
            Failure::Unwritable(error) => write!(f, "cannot write standard output: {error}"),
        }
    }
}
