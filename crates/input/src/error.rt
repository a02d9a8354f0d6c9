// What keeps a program from reading what it is given.
ghost use Rattle.input.specs.declared.error.InputError.TheVariants.{Memory, Unreadable};
ghost use Rattle.std.specs.Prelude.{◌≡◌, string_bytes};

use std::alloc::{AllocError, Global};
use std::{fmt, io};

#[derive(Debug, Drop)]
pub enum InputError {
    // A file, standard input or the arguments cannot be read.
    Unreadable { source: String, error: io::Error },
    Memory,
}

impl InputError {
    // The failure to read from `source`, unless there is no memory for its name.
    pub fn unreadable(heap: Global, source: &str, error: io::Error) -> InputError
        ensures { elim result [ Unreadable s e ↦ (string_bytes s ≡ source.now) × (e ≡ error) | Memory ↦ Unit {0} ] }
    {
        match String::from_str(heap, source) {
            Ok(source) => InputError::Unreadable { source, error },
            Err(_) => InputError::Memory,
        }
    }
}

impl From<AllocError> for InputError {
    ghost from_gives = { λ _ r. r ≡ Memory };

    fn from(_error: AllocError) -> InputError {
        InputError::Memory
    }
}

impl fmt::Display for InputError {
    fn fmt<W: fmt::Write>(&self, f: &mut fmt::Formatter<W>) -> fmt::Result {
        match self {
            InputError::Unreadable { source, error } => write!(f, "cannot read {source}: {error}"),
            InputError::Memory => write!(f, "out of memory"),
        }
    }
}
