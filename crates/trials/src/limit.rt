// How many steps a chase with ranks takes at most: the formula of the engine's limit, computed up to 2^64 - 1.
use crate::model::{Case, constants, variables};
use move_rows::{Atom, Dependency};
use std::alloc::{AllocError, Global};
use std::collections::BTreeSet;

// How many different variables the head of a tgd has that its body has too, and how many that it has not.
#[derive(Clone, Copy)]
struct Parts {
    frontier: u32,
    existential: u64,
}

impl Parts {
    fn new(heap: Global, body: &[Atom], head: &[Atom]) -> Result<Parts, AllocError> {
        let body = variables(heap, body)?
            .into_iter()
            .collect::<BTreeSet<u64>>(heap)?;
        let head = variables(heap, head)?
            .into_iter()
            .collect::<BTreeSet<u64>>(heap)?;
        let frontier = head.intersection(&body).count();
        Ok(Parts {
            frontier: u32::try_from(frontier).unwrap_or(u32::MAX),
            existential: head.difference(&body).count() as u64,
        })
    }

    // How many matches of the frontier there are among so many values, each giving so many.
    fn given(self, each: u64, values: u64) -> u64 {
        each.saturating_mul(values.saturating_pow(self.frontier))
    }
}

// How many different numbers stand in the facts and the dependencies.
fn count_numbers(heap: Global, case: &Case) -> Result<u64, AllocError> {
    let mut numbers = BTreeSet::new(heap);
    for fact in case.facts.iter() {
        numbers.extend(fact.values.as_slice())?;
    }
    for dependency in case.dependencies.iter() {
        numbers.extend(constants(heap, dependency.body())?)?;
        numbers.extend(constants(heap, dependency.head())?)?;
    }
    Ok(numbers.len() as u64)
}

// How many nulls the tgds can make of so many values.
fn nulls_made(tgds: &[Parts], values: u64) -> u64 {
    let nulls = tgds.iter().map(|tgd| tgd.given(tgd.existential, values));
    nulls.fold(0, |sum: u64, made| sum.saturating_add(made))
}

// The limit where no rank is above `most`.
pub fn limit(heap: Global, case: &Case, most: u64) -> Result<u64, AllocError> {
    let mut tgds = Vec::new(heap);
    for dependency in case.dependencies.iter() {
        if let Dependency::Tgd { body, head } = dependency {
            tgds.push(Parts::new(heap, body.as_slice(), head.as_slice())?)?;
        }
    }
    let numbers = count_numbers(heap, case)?;
    let mut level = 0;
    for _ in 0..most {
        level = numbers.saturating_add(nulls_made(tgds.as_slice(), level));
    }
    let highest = numbers.saturating_add(nulls_made(tgds.as_slice(), level));
    let steps = tgds.iter().map(|tgd| {
        let values = if tgd.existential > 0 { level } else { highest };
        tgd.given(tgd.existential.saturating_add(1), values)
    });
    Ok(steps.fold(0, |sum: u64, taken| sum.saturating_add(taken)))
}
