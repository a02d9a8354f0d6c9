// Moves of facts by dependencies, what is told of one in words, and the worked example.
use crate::model::{Dependency, Fact};
use crate::rows::{dependencies_row, facts_row};
use crate::text::read_dependency;
use chase::move_facts;
use relational::{INSTANCE_LEN, Refusal};
use std::alloc::{AllocError, Global};
use std::fmt;

// Facts, and the dependencies by which they are moved.
#[derive(Drop)]
pub struct Moves {
    heap: Global,
    facts: Vec<Fact>,
    dependencies: Vec<Dependency>,
}

impl Moves {
    pub fn new(heap: Global) -> Moves {
        Moves {
            heap,
            facts: Vec::new(heap),
            dependencies: Vec::new(heap),
        }
    }

    pub fn fact(&mut self, relation: u64, values: &[u64]) -> Result<(), AllocError> {
        self.facts.push(Fact::new(relation, values))?;
        Ok(())
    }

    // A dependency in text, as `0(x y)` and `10(x z) 11(z y)`, or `10(x y) 10(x z)` and `y=z`.
    pub fn rule(&mut self, body: &str, gives: &str) -> Result<(), AllocError> {
        self.dependencies
            .push(read_dependency(self.heap, body, gives)?)?;
        Ok(())
    }

    pub fn facts_row(&self) -> Result<Vec<u64>, AllocError> {
        facts_row(self.heap, self.facts.as_slice())
    }

    pub fn rules_row(&self) -> Result<Vec<u64>, AllocError> {
        dependencies_row(self.heap, self.dependencies.as_slice())
    }

    // What comes of moving them all at once; the numbers below c are constants.
    pub fn told(&self, c: u64) -> Result<Words, AllocError> {
        let facts = self.facts_row()?;
        let rules = self.rules_row()?;
        let mut out = [0; INSTANCE_LEN];
        Ok(Words(move_facts(facts.as_slice(), rules.as_slice(), &mut out, c)))
    }
}

// The reply to a move, to be printed.
#[derive(Clone, Copy)]
pub struct Words(pub Result<Option<u64>, Refusal>);

impl fmt::Display for Words {
    fn fmt<W: fmt::Write>(&self, f: &mut fmt::Formatter<W>) -> fmt::Result {
        match self.0 {
            Ok(Some(count)) => write!(f, "done {count}"),
            Ok(None) => write!(f, "impossible"),
            Err(refusal) => write!(f, "{refusal}"),
        }
    }
}

// The worked example, its maker under so many names.
pub fn persons(heap: Global, names: u64) -> Result<Moves, AllocError> {
    let mut moves = Moves::new(heap);
    for n in 0..names {
        moves.fact(0, &[1, 50 + n % 2])?;
    }
    moves.fact(1, &[1, 70])?;
    moves.fact(1, &[2, 71])?;
    moves.rule("0(x y)", "10(x z) 11(z y)")?;
    moves.rule("1(x y)", "10(x z) 12(z y)")?;
    moves.rule("10(x y) 10(x z)", "y=z")?;
    moves.rule("11(x y) 11(x z)", "y=z")?;
    Ok(moves)
}
