// Runs moves in two stages at the boundaries of the chase.
#![tactic(auto)]

use move_rows::{Moves, Words, persons};
use redundancy::move_in_two;
use relational::INSTANCE_LEN;
use std::alloc::{AllocError, Global};
use std::io;

// What comes of a move whose first stage has so many of the dependencies.
fn told_in_two(moves: &Moves, first: usize) -> Result<Words, AllocError> {
    let facts = moves.facts_row()?;
    let rules = moves.rules_row()?;
    let mut out = [0; INSTANCE_LEN];
    Ok(Words(move_in_two(facts.as_slice(), rules.as_slice(), first, &mut out, 1000)))
}

// Facts 0(i), which are copied to relation 1 and from there to the relation of `last`.
fn copies(heap: Global, n: u64, last: &str) -> Result<Moves, AllocError> {
    let mut moves = Moves::new(heap);
    for i in 0..n {
        moves.fact(0, &[i])?;
    }
    moves.rule("0(x)", "1(x)")?;
    moves.rule("1(x)", last)?;
    Ok(moves)
}

// The worked example, and behind it objects with the names of their makers.
fn named(heap: Global) -> Result<Moves, AllocError> {
    let mut moves = persons(heap, 1)?;
    moves.rule("10(x y) 11(y z)", "20(x z)")?;
    Ok(moves)
}

fn main(rt: HostRuntime) -> io::Result<()> {
    let heap = rt.alloc();
    let named = named(heap)?;
    println!(rt; "persons, then their names: {}", told_in_two(&named, 4)?)?;
    println!(rt; "all at once: {}", named.told(1000)?)?;
    println!(rt; "an egd in the second stage: {}", told_in_two(&named, 2)?)?;
    let some = copies(heap, 63, "2(x)")?;
    println!(rt;
        "126 changing steps and two looks: {}",
        told_in_two(&some, 1)?
    )?;
    let more = copies(heap, 64, "2(x)")?;
    println!(rt;
        "128 changing steps and two looks: {}",
        told_in_two(&more, 1)?
    )?;
    let back = copies(heap, 3, "0(x)")?;
    println!(rt;
        "back to a relation that the first look at: {}",
        told_in_two(&back, 1)?
    )?;
    println!(rt;
        "nothing left for a second stage: {}",
        told_in_two(&back, 9)?
    )
}
