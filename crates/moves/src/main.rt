// Runs moves at the boundaries of the chase, and mistakes that a chase could make, each as a small case.
#![tactic(auto)]

use move_rows::{Moves, persons};
use std::alloc::{AllocError, Global};
use std::io;

// Facts 0(i) and 5(1 2), a copy of each 0(i) in two relations, and of 5(1 2) in a third: 2 n + 1 steps.
fn copies(heap: Global, n: u64) -> Result<Moves, AllocError> {
    let mut moves = Moves::new(heap);
    for i in 0..n {
        moves.fact(0, &[i])?;
    }
    moves.fact(5, &[1, 2])?;
    moves.rule("0(x)", "1(x)")?;
    moves.rule("0(x)", "2(x)")?;
    moves.rule("5(x y)", "6(x y)")?;
    Ok(moves)
}

// The same, and then 1 and 2 are made equal.
fn clash(heap: Global, n: u64) -> Result<Moves, AllocError> {
    let mut moves = copies(heap, n)?;
    moves.rule("5(x y)", "x=y")?;
    Ok(moves)
}

// 10(1 2), and each person of 10 knows another: a chain without end.
fn chain(heap: Global) -> Result<Moves, AllocError> {
    let mut moves = Moves::new(heap);
    moves.fact(10, &[1, 2])?;
    moves.rule("10(x y)", "10(y z)")?;
    Ok(moves)
}

// 64 facts 0(i i + 1) and 16 dependencies, each of which looks for three edges in a row that end at a constant.
fn paths(heap: Global) -> Result<Moves, AllocError> {
    let mut moves = Moves::new(heap);
    for i in 0..64 {
        moves.fact(0, &[i, i + 1])?;
    }
    for relation in 20..36 {
        let head = format!(in heap; "{relation}(x)")?;
        moves.rule("0(x y) 0(y z) 0(z 60)", head.as_str())?;
    }
    Ok(moves)
}

// The head is there already, with another person: no new one is made.
fn already_there(heap: Global) -> Result<Moves, AllocError> {
    let mut moves = Moves::new(heap);
    moves.fact(2, &[1, 9])?;
    moves.fact(1, &[1])?;
    moves.rule("1(x)", "2(x y)")?;
    Ok(moves)
}

fn main(rt: HostRuntime) -> io::Result<()> {
    let heap = rt.alloc();
    println!(rt; "worked example: {}", persons(heap, 1)?.told(100)?)?;
    println!(rt; "with a second name: {}", persons(heap, 2)?.told(100)?)?;
    println!(rt; "no ranks: {}", chain(heap)?.told(100)?)?;
    println!(rt; "127 changing steps: {}", copies(heap, 63)?.told(1000)?)?;
    println!(rt; "a failure at step 128: {}", clash(heap, 63)?.told(1000)?)?;
    println!(rt; "64 facts, 16 dependencies: {}", paths(heap)?.told(1000)?)?;
    println!(rt; "head already there: {}", already_there(heap)?.told(100)?)
}
