// Reads facts and rules from two files, or both from standard input, and prints the facts of a universal solution, a line each, or that there is none, or why they
// are refused.
#![tactic(auto)]

mod report;

use input::{Failure, arguments, print_answer, read_file, read_standard_input};
use report::{report, stream_report};
use std::process::ExitCode;

const USAGE: &str =
    "give a file of facts and a file of rules, or neither and both on standard input";

fn read_and_report(rt: &HostRuntime) -> Result<String, Failure> {
    let words = arguments(rt)?;
    match words.as_slice() {
        [] => {
            let bytes = read_standard_input(rt)?;
            Ok(stream_report(rt.alloc(), bytes.as_slice())?)
        }
        [facts, rules] => {
            let facts = read_file(rt, facts.as_str())?;
            let rules = read_file(rt, rules.as_str())?;
            Ok(report(rt.alloc(), facts.as_slice(), rules.as_slice())?)
        }
        _ => Err(Failure::Usage(USAGE)),
    }
}

fn main(rt: HostRuntime) -> ExitCode {
    print_answer(&rt, "exchange", read_and_report(&rt))
}
