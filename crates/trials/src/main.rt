// Random trials of the engine, judged by plain code that shares nothing with it, and mistakes that it could make, each with a case on which that would show.
#![tactic(auto)]

mod complete;
mod finder;
mod generate;
mod judge;
mod lessons;
mod limit;
mod model;
mod others;
mod random;
mod redundant;
mod request;
mod tally;
mod teach;

use finder::Stop;
use generate::Generator;
use judge::Judge;
use lessons::{LESSONS, Lesson};
use request::Request;
use std::alloc::Global;
use std::{env, io};
use tally::{LABELS, Seen, Tally};
use teach::learn;

const SEED: u64 = 1;

const CASES: u64 = 4000;

fn try_case(heap: Global, judge: &mut Judge) -> Result<(), Stop> {
    let case = Generator::new(heap, &mut judge.maker.random).case()?;
    let request = Request::new(heap, case)?;
    judge.judge(&request)?;
    judge.judge_implied(&request)
}

fn try_cases(heap: Global, seed: u64, cases: u64) -> Result<Tally, Stop> {
    let mut judge = Judge::new(heap);
    for number in 0..cases {
        judge.begin(seed, number);
        match try_case(heap, &mut judge) {
            Ok(()) => {}
            Err(Stop::Effort) => judge.tally.count(Seen::LeftOut)?,
            Err(Stop::Memory) => return Err(Stop::Memory),
        }
    }
    Ok(judge.tally)
}

fn print_tally(rt: &HostRuntime, seed: u64, tally: &Tally) -> io::Result<()> {
    for (seen, label) in LABELS.iter() {
        println!(rt; "{label}: {}", tally.times(*seen))?;
    }
    println!(rt; "failures: {}", tally.failures.len())?;
    for failure in tally.failures.iter() {
        println!(rt; "seed {seed}, case {}: {}", failure.case, failure.what)?;
    }
    Ok(())
}

// Whether the engine makes a mistake, and what would come of it.
fn print_lesson(rt: &HostRuntime, lesson: &Lesson) -> io::Result<()> {
    let mistake = lesson.mistake;
    match learn(rt.alloc(), lesson) {
        Ok(Some(fault)) => println!(rt; "{mistake}: right (mistaken: {fault})"),
        Ok(None) => println!(rt; "{mistake}: WRONG"),
        Err(_) => println!(rt; "{mistake}: not judged"),
    }
}

// The number that a word of the command is, or else the other.
fn number_or(word: Option<&String>, other: u64) -> u64 {
    let number = word.and_then(|word| word.as_str().parse::<u64>().ok());
    number.unwrap_or(other)
}

fn print_trials(rt: &HostRuntime, seed: u64, cases: u64) -> io::Result<()> {
    println!(rt; "seed: {seed}")?;
    println!(rt; "cases: {cases}")?;
    match try_cases(rt.alloc(), seed, cases) {
        Ok(tally) => print_tally(rt, seed, &tally),
        Err(_) => println!(rt; "out of memory"),
    }
}

// A seed, and how many cases, may be given.
fn main(rt: HostRuntime) -> io::Result<()> {
    for lesson in LESSONS.iter() {
        print_lesson(&rt, lesson)?;
    }
    let words = env::args(&rt)?.collect::<Vec<String>>(rt.alloc())?;
    let seed = number_or(words.get(1), SEED);
    let cases = number_or(words.get(2), CASES);
    print_trials(&rt, seed, cases)
}
