// A case with its rows of numbers, as it is put to the engine.
use crate::model::Case;
use chase::move_facts;
use move_rows::{dependencies_row, facts_row, query_row};
use query::certain_answers;
use relational::Refusal;
use std::alloc::{AllocError, Global};

#[derive(Drop)]
pub struct Request {
    pub heap: Global,
    pub case: Case,
    facts: Vec<u64>,
    rules: Vec<u64>,
    query: Vec<u64>,
}

impl Request {
    pub fn new(heap: Global, case: Case) -> Result<Request, AllocError> {
        let facts = facts_row(heap, case.facts.as_slice())?;
        let rules = dependencies_row(heap, case.dependencies.as_slice())?;
        let query = query_row(heap, &case.query.row.terms, case.query.atoms.as_slice())?;
        Ok(Request {
            heap,
            case,
            facts,
            rules,
            query,
        })
    }

    pub fn rules(&self) -> &[u64] {
        self.rules.as_slice()
    }

    // How many facts were written, or nothing where there is no solution.
    pub fn moved(&self, out: &mut [u64]) -> Result<Option<u64>, Refusal> {
        self.moved_with(self.facts.as_slice(), out)
    }

    // The same of other facts.
    pub fn moved_with(&self, facts: &[u64], out: &mut [u64]) -> Result<Option<u64>, Refusal> {
        move_facts(facts, self.rules(), out, self.case.c)
    }

    // How many answers were written, or nothing where there is no solution.
    pub fn answered(&self, out: &mut [u64]) -> Result<Option<u64>, Refusal> {
        let facts = self.facts.as_slice();
        certain_answers(facts, self.rules(), self.query.as_slice(), out, self.case.c)
    }
}
