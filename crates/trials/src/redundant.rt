// What the engine says of cores and of implied tgds, judged by finding matches plainly.
use crate::complete::End;
use crate::finder::Stop;
use crate::generate::Generator;
use crate::judge::{Judge, Moved};
use crate::model::Instance;
use crate::request::Request;
use crate::tally::Seen;
use move_rows::{Dependency, Fact, dependency_row, facts_of, facts_row};
use redundancy::{core_of, implied};
use relational::INSTANCE_LEN;
use std::alloc::{AllocError, Global};

// How many facts a result has at most whose core is looked at.
const CORE_FACTS: usize = 30;

// The facts without one of them.
fn without(heap: Global, facts: &[Fact], spared: &Fact) -> Result<Vec<Fact>, AllocError> {
    let facts = facts.iter().copied();
    facts.filter(|fact| fact != spared).collect(heap)
}

// The body of a tgd as facts, where `value` gives the values of its variables.
fn body_facts<F: Fn(u64) -> u64>(
    heap: Global,
    asked: &Dependency,
    value: F,
) -> Result<Vec<Fact>, AllocError>
    requires { (f : F) (x : _) → F.pre f x }
{
    // A chain was tried, and the proof of its closure did not close.
    let mut facts = Vec::new(heap);
    for atom in asked.body() {
        facts.push(atom.image(&value))?;
    }
    Ok(facts)
}

impl Judge {
    // The core is a part of the result into which it goes, and a solution.
    pub fn judge_core(&mut self, moved: Moved) -> Result<(), Stop> {
        let request = moved.request;
        if moved.instance.facts.len() > CORE_FACTS {
            return Ok(());
        }
        let row = facts_row(request.heap, moved.instance.facts)?;
        let mut out = [0; INSTANCE_LEN];
        let reply = core_of(row.as_slice(), &mut out, request.case.c);
        let part = facts_of(request.heap, &out)?;
        let written = reply == Ok(part.len() as u64);
        self.tally.check(written, "a result has a core")?;
        if part.len() < moved.instance.facts.len() {
            self.tally.count(Seen::Smaller)?;
        }
        for fact in part.iter() {
            self.tally.check(
                moved.instance.facts.contains(fact),
                "the core is a part of the result",
            )?;
        }
        let goes = self.maker.finder.goes_into(moved.pattern, part.as_slice())?;
        self.tally.check(goes, "the result goes into its core")?;
        let solves = self.maker.finder.solves(&request.case, part.as_slice())?;
        self.tally.check(solves, "the core is a solution")?;
        self.judge_spared(request, part.as_slice())
    }

    // None of the facts of a core can be spared.
    fn judge_spared(&mut self, request: &Request, part: &[Fact]) -> Result<(), Stop> {
        let core = Instance {
            facts: part,
            c: request.case.c,
        };
        let pattern = core.pattern(request.heap)?;
        for fact in part {
            let rest = without(request.heap, part, fact)?;
            let goes = self
                .maker
                .finder
                .goes_into(pattern.as_slice(), rest.as_slice())?;
            self.tally.check(!goes, "a fact of the core is needed")?;
        }
        Ok(())
    }

    // Whether any tgd follows from the tgds of the case.
    pub fn judge_implied(&mut self, request: &Request) -> Result<(), Stop> {
        let asked = Generator::new(request.heap, &mut self.maker.random).question(request.case.c)?;
        let row = dependency_row(request.heap, &asked)?;
        match implied(request.rules(), row.as_slice(), request.case.c) {
            Ok(true) => {
                self.tally.count(Seen::Implied)?;
                for _ in 0..4 {
                    self.judge_keeps(request, &asked)?;
                }
                Ok(())
            }
            Ok(false) => {
                self.tally.count(Seen::NotImplied)?;
                self.judge_example(request, &asked)
            }
            // There is an egd, or it was given up.
            Err(_) => Ok(()),
        }
    }

    // An instance that has the body and keeps the case's dependencies keeps what follows from them.
    fn judge_keeps(&mut self, request: &Request, asked: &Dependency) -> Result<(), Stop> {
        let c = request.case.c;
        let mut values = [0; 16];
        for value in values.iter_mut() {
            *value = self.maker.random.below(c.saturating_add(2));
        }
        let facts = body_facts(request.heap, asked, |x| {
            values.get(x as usize).copied().unwrap_or(0)
        })?;
        let start = Instance {
            facts: facts.as_slice(),
            c,
        };
        if let Some(kept) = self.maker.mended(request, start, c.saturating_add(3))? {
            let violated = self.maker.finder.violated(asked, kept.as_slice())?;
            self.tally.check(!violated, "a tgd that follows is kept")?;
        }
        Ok(())
    }

    // The steps from the body with its variables as constants come to an instance that does not keep what does not follow.
    fn judge_example(&mut self, request: &Request, asked: &Dependency) -> Result<(), Stop> {
        let c = request.case.c;
        let facts = body_facts(request.heap, asked, |x| c.saturating_add(x))?;
        let start = Instance {
            facts: facts.as_slice(),
            c: c.saturating_add(16),
        };
        let work = self.maker.chased(request, start)?;
        let violated = self.maker.finder.violated(asked, work.facts.as_slice())?;
        self.tally.check(
            work.end == End::Kept && violated,
            "a tgd that does not follow is not kept",
        )
    }
}
