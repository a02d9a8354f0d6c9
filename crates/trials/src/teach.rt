// Whether the engine makes none of the mistakes, and by what a mistaken answer would be told.
use crate::finder::{Finder, Stop};
use crate::lessons::{Asked, C, Lesson};
use crate::model::{Case, Instance, Query};
use crate::request::Request;
use move_rows::{Atom, Fact, answers_of, facts_of, read_atoms, read_dependency, read_facts};
use relational::{INSTANCE_LEN, Refusal, Term};
use std::alloc::{AllocError, Global};

const EFFORT: u64 = 100_000;

fn query_of(heap: Global, row: &str) -> Result<Query, AllocError> {
    let rows = read_atoms(heap, row)?;
    let atom = Atom::new(10, &[Term::Variable(0), Term::Variable(1)]);
    Ok(Query {
        row: rows.first().copied().unwrap_or(Atom::new(0, &[])),
        atoms: Vec::from_slice(heap, &[atom])?,
    })
}

fn case_of(heap: Global, lesson: &Lesson) -> Result<Case, AllocError> {
    let mut dependencies = Vec::new(heap);
    for rule in lesson.rules.iter() {
        dependencies.push(read_dependency(heap, rule.body, rule.gives)?)?;
    }
    Ok(Case {
        c: C,
        facts: read_facts(heap, lesson.facts)?,
        dependencies,
        query: query_of(heap, lesson.row)?,
    })
}

// The facts or answers in a text; nothing where it is impossible.
fn read(heap: Global, text: Option<&str>) -> Result<Option<Vec<Fact>>, AllocError> {
    match text {
        Some(text) => Ok(Some(read_facts(heap, text)?)),
        None => Ok(None),
    }
}

// What the engine tells: the facts or the answers, nothing where it is impossible, or a refusal.
type Told = Result<Option<Vec<Fact>>, Refusal>;

fn told(request: &Request, asked: Asked) -> Result<Told, AllocError> {
    let heap = request.heap;
    match asked {
        Asked::Facts => {
            let mut out = [0; INSTANCE_LEN];
            let done = request.moved(&mut out);
            let facts = facts_of(heap, &out)?;
            Ok(done.map(|done| done.and(Some(facts))))
        }
        Asked::Answers => {
            let mut out = [0; 65];
            let done = request.answered(&mut out);
            let answers = answers_of(heap, &out, request.case.query.row.terms.count)?;
            Ok(done.map(|done| done.and(Some(answers))))
        }
    }
}

// What is wrong with mistaken facts.
fn fault_of_facts(
    case: &Case,
    mistaken: &[Fact],
    right: Option<&Vec<Fact>>,
) -> Result<&'static str, Stop> {
    let heap = *case.facts.allocator();
    let mut finder = Finder::new(heap, EFFORT);
    if !finder.solves(case, mistaken)? {
        return Ok("no solution");
    }
    let Some(right) = right else {
        return Ok("a solution where there is none");
    };
    let instance = Instance {
        facts: mistaken,
        c: case.c,
    };
    let pattern = instance.pattern(heap)?;
    if !finder.goes_into(pattern.as_slice(), right.as_slice())? {
        return Ok("a solution that says too much");
    }
    Ok("a universal solution, though not the one laid down")
}

fn fault_of(
    case: &Case,
    asked: Asked,
    mistaken: Option<&Vec<Fact>>,
    right: Option<&Vec<Fact>>,
) -> Result<&'static str, Stop> {
    let Some(mistaken) = mistaken else {
        return Ok("a solution is denied");
    };
    match asked {
        Asked::Facts => fault_of_facts(case, mistaken.as_slice(), right),
        Asked::Answers if right.is_some_and(|right| mistaken.len() > right.len()) => {
            Ok("an answer that is not certain")
        }
        Asked::Answers => Ok("a certain answer is missing"),
    }
}

// What the mistaken answer is, where the engine answers right and the mistake would answer otherwise.
pub fn learn(heap: Global, lesson: &Lesson) -> Result<Option<&'static str>, Stop> {
    let request = Request::new(heap, case_of(heap, lesson)?)?;
    let told = told(&request, lesson.asked)?;
    let right = read(heap, lesson.right)?;
    let mistaken = read(heap, lesson.mistaken)?;
    let fault = fault_of(
        &request.case,
        lesson.asked,
        mistaken.as_ref(),
        right.as_ref(),
    )?;
    if mistaken == right || told != Ok(right) {
        return Ok(None);
    }
    Ok(Some(fault))
}
