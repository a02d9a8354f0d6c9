// What the engine says of a case, judged by finding matches plainly.
use crate::complete::End;
use crate::finder::{Finder, Stop};
use crate::limit::limit;
use crate::model::Instance;
use crate::others::Maker;
use crate::random::Random;
use crate::request::Request;
use crate::tally::{Seen, Tally};
use chase::{RANKS_LEN, STEPS, position_ranks};
use move_rows::{Atom, Fact, answers_of, facts_of};
use relational::{INSTANCE_LEN, Refusal};
use std::alloc::Global;

// How many facts may be tried in one case.
const EFFORT: u64 = 1_000_000;

// How many numbers there is room for in answers.
const ANSWERS_LEN: usize = 16_385;

// A result of a request, the same as a pattern, and the certain answers.
#[derive(Clone, Copy)]
pub struct Moved<'a> {
    pub request: &'a Request,
    pub instance: Instance<'a>,
    pub pattern: &'a [Atom],
    answers: &'a [Fact],
}

#[derive(Drop)]
pub struct Judge {
    pub maker: Maker,
    pub tally: Tally,
}

impl Judge {
    pub fn new(heap: Global) -> Judge {
        Judge {
            maker: Maker {
                random: Random::new(0, 0),
                finder: Finder::new(heap, 0),
            },
            tally: Tally::new(heap),
        }
    }

    // Turns to a case.
    pub fn begin(&mut self, seed: u64, case: u64) {
        self.maker.random = Random::new(seed, case);
        self.tally.case = case;
        self.maker.finder.begin(EFFORT);
    }

    pub fn judge(&mut self, request: &Request) -> Result<(), Stop> {
        let mut out = [0; INSTANCE_LEN];
        match request.moved(&mut out) {
            Ok(Some(count)) => {
                self.tally.count(Seen::Done)?;
                let facts = facts_of(request.heap, &out)?;
                self.tally
                    .check(facts.len() as u64 == count, "so many facts are written")?;
                self.judge_result(request, facts.as_slice())
            }
            Ok(None) => {
                self.tally.count(Seen::Impossible)?;
                self.judge_impossible(request)
            }
            Err(Refusal::GivenUp { .. }) => self.judge_given_up(request),
            Err(_) => self.tally.check(false, "a case is a request"),
        }
    }

    fn judge_result(&mut self, request: &Request, facts: &[Fact]) -> Result<(), Stop> {
        let c = request.case.c;
        let instance = Instance { facts, c };
        let solves = self.maker.finder.solves(&request.case, facts)?;
        self.tally.check(solves, "the result is a solution")?;
        if instance.end() > c {
            self.tally.count(Seen::WithNulls)?;
        }
        self.judge_steps(request, End::Kept, facts)?;
        let answers = self.judge_answers(request, instance)?;
        let pattern = instance.pattern(request.heap)?;
        let moved = Moved {
            request,
            instance,
            pattern: pattern.as_slice(),
            answers: answers.as_slice(),
        };
        self.judge_all_others(moved)?;
        self.judge_core(moved)?;
        self.judge_too_much(request, instance)
    }

    // The other instances that a result is held against.
    fn judge_all_others(&mut self, moved: Moved) -> Result<(), Stop> {
        let request = moved.request;
        let heap = request.heap;
        let solution = moved.instance;
        self.judge_others(moved, 2, Seen::OfMoreFacts, move |maker| {
            maker.of_more_facts(request)
        })?;
        self.judge_others(moved, 3, Seen::Merged, move |maker| {
            maker.merged(heap, solution)
        })?;
        self.judge_others(moved, 2, Seen::WithJunk, move |maker| {
            maker.with_junk(heap, solution)
        })?;
        self.judge_others(moved, 4, Seen::Completed, move |maker| {
            maker.completed(request)
        })?;
        self.judge_others(moved, 2, Seen::Drawn, move |maker| maker.drawn(request))
    }

    // The steps as they are laid down come to the same end, and to the same facts where it is done.
    fn judge_steps(&mut self, request: &Request, end: End, facts: &[Fact]) -> Result<(), Stop> {
        let work = self.maker.chased(request, request.case.instance())?;
        if work.into_constants > 0 {
            self.tally.count(Seen::IntoConstant)?;
        }
        if work.into_nulls > 0 {
            self.tally.count(Seen::IntoNull)?;
        }
        let same = end == End::Clash || work.facts.as_slice() == facts;
        self.tally
            .check(work.end == end && same, "the steps lead there")
    }

    // The certain answers are the rows of constants that the result answers.
    fn judge_answers(&mut self, request: &Request, solution: Instance) -> Result<Vec<Fact>, Stop> {
        let mut out = [0; ANSWERS_LEN];
        let told = request.answered(&mut out);
        self.tally
            .check(matches!(told, Ok(Some(_))), "a result has answers")?;
        let query = &request.case.query;
        let answers = answers_of(request.heap, &out, query.row.terms.count)?;
        for answer in answers.iter() {
            let answered = self.maker.finder.answers(query, answer, solution.facts)?;
            self.tally
                .check(answered, "an answer is one of the result")?;
        }
        let missed = self
            .maker
            .finder
            .answers_more(query, answers.as_slice(), solution)?;
        self.tally.check(!missed, "no answer is missing")?;
        self.tally.count(if answers.is_empty() {
            Seen::Unanswered
        } else {
            Seen::Answered
        })?;
        Ok(answers)
    }

    // Holds the result against so many other instances that are made: where one is a solution, the result goes into it.
    fn judge_others<F: Fn(&mut Maker) -> Result<Option<Vec<Fact>>, Stop>>(
        &mut self,
        moved: Moved,
        times: u64,
        seen: Seen,
        make: F,
    ) -> Result<(), Stop>
        requires { (f : F) (x : _) → F.pre f x }
    {
        for _ in 0..times {
            let Some(other) = make(&mut self.maker)? else {
                continue;
            };
            if self
                .maker
                .finder
                .solves(&moved.request.case, other.as_slice())?
            {
                self.tally.count(seen)?;
                self.judge_solution(moved, other.as_slice())?;
            } else {
                self.tally.count(Seen::NoSolution)?;
                let expected = matches!(seen, Seen::OfMoreFacts | Seen::Completed);
                self.tally.check(!expected, "what was made is a solution")?;
            }
        }
        Ok(())
    }

    // The result goes into another solution, which has the certain answers.
    fn judge_solution(&mut self, moved: Moved, other: &[Fact]) -> Result<(), Stop> {
        let request = moved.request;
        let query = &request.case.query;
        let other = Instance {
            facts: other,
            c: request.case.c,
        };
        let goes = self.maker.finder.goes_into(moved.pattern, other.facts)?;
        self.tally.check(goes, "the result goes into a solution")?;
        for answer in moved.answers {
            let answered = self.maker.finder.answers(query, answer, other.facts)?;
            self.tally
                .check(answered, "a certain answer holds in a solution")?;
        }
        if self.maker.finder.answers_more(query, moved.answers, other)? {
            self.tally.count(Seen::Uncertain)?;
        }
        let back = other.pattern(request.heap)?;
        if !self
            .maker
            .finder
            .goes_into(back.as_slice(), moved.instance.facts)?
        {
            self.tally.count(Seen::OneWay)?;
        }
        Ok(())
    }

    // With nulls replaced a result mostly says too much, and does not go into every solution: the judge must be able to see that.
    fn judge_too_much(&mut self, request: &Request, solution: Instance) -> Result<(), Stop> {
        let Some(much) = self.maker.merged(request.heap, solution)? else {
            return Ok(());
        };
        self.tally.count(Seen::TooMuch)?;
        let much = Instance {
            facts: much.as_slice(),
            c: solution.c,
        };
        let pattern = much.pattern(request.heap)?;
        for _ in 0..6 {
            let Some(other) = self.maker.completed(request)? else {
                continue;
            };
            if !self
                .maker
                .finder
                .goes_into(pattern.as_slice(), other.as_slice())?
            {
                self.tally.count(Seen::Noticed)?;
                break;
            }
        }
        Ok(())
    }

    // No solution is found among many instances that have the facts.
    fn judge_impossible(&mut self, request: &Request) -> Result<(), Stop> {
        self.judge_steps(request, End::Clash, &[])?;
        let told = request.answered(&mut [0; ANSWERS_LEN]);
        self.tally.check(told == Ok(None), "nor has it answers")?;
        for _ in 0..10 {
            let completed = self.maker.completed(request)?;
            self.judge_no_solution(request, completed)?;
            for _ in 0..2 {
                let drawn = self.maker.drawn(request)?;
                self.judge_no_solution(request, drawn)?;
            }
        }
        Ok(())
    }

    fn judge_no_solution(
        &mut self,
        request: &Request,
        other: Option<Vec<Fact>>,
    ) -> Result<(), Stop> {
        if let Some(other) = other {
            let solves = self.maker.finder.solves(&request.case, other.as_slice())?;
            self.tally.check(!solves, "there is no solution")?;
        }
        Ok(())
    }

    // There are no ranks, or the limit allows so many steps.
    fn judge_given_up(&mut self, request: &Request) -> Result<(), Stop> {
        let told = request.answered(&mut [0; ANSWERS_LEN]);
        self.tally.check(
            matches!(told, Err(Refusal::GivenUp { .. })),
            "nor is it answered",
        )?;
        let mut out = [0; RANKS_LEN];
        match position_ranks(request.rules(), &mut out) {
            Err(Refusal::Unranked { .. }) => self.tally.count(Seen::Unranked),
            Err(_) => self.tally.check(false, "the dependencies are some"),
            Ok(count) => {
                self.tally.count(Seen::BeyondSteps)?;
                let ranks = out.iter().skip(3).step_by(3).take(count as usize);
                let most = ranks.copied().max().unwrap_or(0);
                let steps = limit(request.heap, &request.case, most)?;
                self.tally
                    .check(steps >= STEPS, "the limit allows so many steps")
            }
        }
    }
}
