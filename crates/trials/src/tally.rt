// What the trials have seen.
use crate::finder::Stop;
use std::alloc::Global;
use std::collections::BTreeMap;

#[derive(Clone, Copy, PartialEq, Eq, PartialOrd, Ord)]
pub enum Seen {
    Done,
    Impossible,
    Unranked,
    BeyondSteps,
    LeftOut,
    WithNulls,
    IntoConstant,
    IntoNull,
    OfMoreFacts,
    Merged,
    WithJunk,
    Completed,
    Drawn,
    OneWay,
    Uncertain,
    NoSolution,
    Answered,
    Unanswered,
    TooMuch,
    Noticed,
    Smaller,
    Implied,
    NotImplied,
    Check,
}

// What each count is called, in the order in which they are printed.
pub const LABELS: [(Seen, &str); 24] = [
    (Seen::Done, "done"),
    (Seen::Impossible, "impossible"),
    (Seen::Unranked, "given up, without ranks"),
    (
        Seen::BeyondSteps,
        "given up, with ranks and a limit of 128 steps or more",
    ),
    (
        Seen::LeftOut,
        "left out from where finding matches took too long",
    ),
    (Seen::WithNulls, "results with nulls"),
    (
        Seen::IntoConstant,
        "cases in which an egd replaced a null by a constant",
    ),
    (
        Seen::IntoNull,
        "cases in which an egd replaced a null by a null",
    ),
    (Seen::OfMoreFacts, "other solutions: from moving more facts"),
    (
        Seen::Merged,
        "other solutions: the result with nulls replaced",
    ),
    (
        Seen::WithJunk,
        "other solutions: the result with any other facts",
    ),
    (
        Seen::Completed,
        "other solutions: from mending with any numbers",
    ),
    (Seen::Drawn, "other solutions: the facts with any others"),
    (
        Seen::OneWay,
        "other solutions that do not go back into the result",
    ),
    (
        Seen::Uncertain,
        "other solutions with answers that are not certain",
    ),
    (Seen::NoSolution, "instances tried that are no solution"),
    (Seen::Answered, "queries with certain answers"),
    (Seen::Unanswered, "queries without certain answers"),
    (Seen::TooMuch, "results spoiled by replacing nulls"),
    (
        Seen::Noticed,
        "spoiled results that do not go into some solution",
    ),
    (Seen::Smaller, "cores that are smaller than the result"),
    (Seen::Implied, "tgds that follow from those of the case"),
    (Seen::NotImplied, "tgds that do not"),
    (Seen::Check, "checks"),
];

// What was to hold and did not, and in which case.
#[derive(Clone, Copy)]
pub struct Failure {
    pub case: u64,
    pub what: &'static str,
}

#[derive(Drop)]
pub struct Tally {
    pub case: u64,
    counts: BTreeMap<Seen, u64>,
    pub failures: Vec<Failure>,
}

impl Tally {
    pub fn new(heap: Global) -> Tally {
        Tally {
            case: 0,
            counts: BTreeMap::new(heap),
            failures: Vec::new(heap),
        }
    }

    // How often it was seen.
    pub fn times(&self, seen: Seen) -> u64 {
        self.counts.get(&seen).copied().unwrap_or(0)
    }

    pub fn count(&mut self, seen: Seen) -> Result<(), Stop> {
        let times = self.counts.entry(seen)?.or_insert(0);
        *times = times.saturating_add(1);
        Ok(())
    }

    // Counts a check, and keeps what fails.
    pub fn check(&mut self, holds: bool, what: &'static str) -> Result<(), Stop> {
        self.count(Seen::Check)?;
        if !holds {
            let case = self.case;
            self.failures.push(Failure { case, what })?;
        }
        Ok(())
    }
}
