// What the programs share: how they are given their arguments, files and standard input, and how they fail.
#![tactic(auto)]

mod error;
mod exit;
mod failure;

pub use error::InputError;
pub use exit::{exit_code, print_answer};
pub use failure::Failure;
use std::io::Read;
use std::{env, fs};

// The arguments behind the program's own name.
pub fn arguments(rt: &HostRuntime) -> Result<Vec<String>, InputError> {
    let words = env::args(rt).map_err(|error| InputError::unreadable(
        rt.alloc(),
        "the arguments",
        error,
    ))?;
    Ok(words.skip(1).collect(rt.alloc())?)
}

pub fn read_file(rt: &HostRuntime, path: &str) -> Result<Vec<u8>, InputError> {
    fs::read(rt, path).map_err(|error| InputError::unreadable(rt.alloc(), path, error))
}

pub fn read_standard_input(rt: &HostRuntime) -> Result<Vec<u8>, InputError> {
    let mut bytes = Vec::new(rt.alloc());
    rt.stdin().read_to_end(&mut bytes).map_err(|error| InputError::unreadable(
        rt.alloc(),
        "standard input",
        error,
    ))?;
    Ok(bytes)
}
