// What keeps the program from writing its answer.
ghost use Rattle.numbers.specs.declared.failure.Failure.TheVariants.{Input, Memory, Text};
ghost use Rattle.std.specs.Prelude.{◌≡◌};

use crate::refusal::Refusal;
use input::InputError;
use std::alloc::AllocError;
use std::{fmt, io};

#[derive(Debug, Drop)]
pub enum Failure {
    // There are more arguments than a file, or than `-d` and a file.
    Arguments,
    // The arguments or the input cannot be read.
    Input(InputError),
    // Standard output cannot be written.
    Unwritable(io::Error),
    // The text is no text of numbers.
    Text(Refusal),
    // So many bytes are no numbers of four bytes each.
    CutShort(usize),
    Memory,
}

impl From<AllocError> for Failure {
    ghost from_gives = { λ _ r. r ≡ Memory };

    fn from(_error: AllocError) -> Failure {
        Failure::Memory
    }
}

impl From<InputError> for Failure {
    ghost from_gives = { λ e r. r ≡ Input e };

    fn from(error: InputError) -> Failure {
        Failure::Input(error)
    }
}

impl From<Refusal> for Failure {
    ghost from_gives = { λ f r. r ≡ Text f };

    fn from(refusal: Refusal) -> Failure {
        Failure::Text(refusal)
    }
}

// What is told on standard error.
impl fmt::Display for Failure {
    fn fmt<W: fmt::Write>(&self, f: &mut fmt::Formatter<W>) -> fmt::Result {
        match self {
            Failure::Arguments => write!(
                f,
                "give a file of numbers as text, or -d and a file of four-byte numbers, or no file and either on standard input"
            ),
            Failure::Input(error) => write!(f, "{error}"),
            Failure::Unwritable(error) => write!(f, "cannot write standard output: {error}"),
            Failure::Text(told) => write!(f, "{told}"),
            Failure::CutShort(len) => write!(
                f,
                "{len} bytes, and four to a number: the last number is cut short"
            ),
            Failure::Memory => write!(f, "out of memory"),
        }
    }
}
