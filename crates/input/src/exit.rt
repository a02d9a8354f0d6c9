// How a program ends.
ghost use Rattle.std.specs.Prelude.{◌≡◌, if◌then◌else◌, false, is_ok};
ghost use Rattle.std.specs.Process.{exit_status};

use crate::failure::Failure;
use std::fmt;
use std::process::ExitCode;

// The status that `program` ends with, 0 or 1. A failure is told in one line on standard error.
pub fn exit_code<E: fmt::Display + Drop>(
    rt: &HostRuntime,
    program: &str,
    outcome: Result<(), E>,
) -> ExitCode
    ensures { exit_status result ≡ (if is_ok outcome then 0 else 1) }
{
    match outcome {
        Ok(()) => ExitCode::SUCCESS,
        Err(failure) => {
            let _ = eprintln!(rt; "{program}: {failure}");
            ExitCode::FAILURE
        }
    }
}

// Prints what a program answers.
fn print(rt: &HostRuntime, answer: Result<String, Failure>) -> Result<(), Failure>
    ensures { is_ok answer ≡ false → is_ok result ≡ false }
{
    let text = answer?;
    print!(rt; "{text}").map_err(Failure::Unwritable)
}

// The status of a program that prints its answer: 1 too where it has none.
pub fn print_answer(rt: &HostRuntime, program: &str, answer: Result<String, Failure>) -> ExitCode
    ensures { is_ok answer ≡ false → exit_status result ≡ 1 }
{
    exit_code(rt, program, print(rt, answer))
}
