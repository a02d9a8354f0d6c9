// Turns a text of numbers into four bytes each, and with `-d` such bytes into text: from a file, or from standard input.
#![tactic(auto)]

mod failure;
mod inside;
mod lines;
mod refusal;
mod text;

use failure::Failure;
use input::{arguments, exit_code, read_file, read_standard_input};
use lines::decode;
use std::io::Write;
use std::process::ExitCode;
use text::encode;

// The bytes of the one file that is named, or of standard input where none is.
fn input_bytes(rt: &HostRuntime, files: &[String]) -> Result<Vec<u8>, Failure> {
    match files {
        [] => Ok(read_standard_input(rt)?),
        [file] => Ok(read_file(rt, file.as_str())?),
        _ => Err(Failure::Arguments),
    }
}

fn write_bytes(rt: &HostRuntime, bytes: &[u8]) -> Result<(), Failure> {
    rt.stdout().write_all(bytes).map_err(Failure::Unwritable)
}

fn run(rt: &HostRuntime) -> Result<(), Failure> {
    let words = arguments(rt)?;
    match words.as_slice() {
        [flag, files @ ..] if flag.as_str() == "-d" => {
            let bytes = input_bytes(rt, files)?;
            let text = decode(rt.alloc(), bytes.as_slice())?;
            write_bytes(rt, text.as_bytes())
        }
        files => {
            let text = input_bytes(rt, files)?;
            let bytes = encode(rt.alloc(), text.as_slice())?;
            write_bytes(rt, bytes.as_slice())
        }
    }
}

fn main(rt: HostRuntime) -> ExitCode {
    exit_code(&rt, "numbers", run(&rt))
}
