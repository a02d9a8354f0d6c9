// Why a request is refused, and where.
ghost use Rattle.relational.specs.Readings.{said};
ghost use Rattle.std.specs.Prelude.{◌≡◌, ◌++◌, Some, codes, decimal};

use std::fmt;

#[derive(Clone, Copy, PartialEq, Eq, Debug)]
pub enum Refusal {
    // The facts are cut short, too many, or one of them is malformed.
    Facts { at: u64 },
    // The dependencies are cut short, too many, or one of them is malformed.
    Dependencies { at: u64 },
    // The first null is above 2^32, or a number that came in is not a constant.
    Constants { at: u64 },
    // The row for the instance, or for the ranks, is too short.
    Room { len: u64 },
    // The chase was given up after so many steps.
    GivenUp { steps: u64 },
    // The query is cut short, one of its atoms or terms is malformed or not below the first null, or no atom has a variable of its row.
    Query { at: u64 },
    // There is no room for the next answer.
    Answers { count: u64 },
    // The dependencies up to this one have no ranks.
    Unranked { at: u64 },
}

impl Refusal {
    // The number that the programs tell it by.
    pub fn number(self) -> u64
        ensures { result ≡ (said self).0 }
    {
        match self {
            Refusal::Facts { .. } => 1,
            Refusal::Dependencies { .. } => 2,
            Refusal::Constants { .. } => 3,
            Refusal::Room { .. } => 4,
            Refusal::GivenUp { .. } => 5,
            Refusal::Query { .. } => 6,
            Refusal::Answers { .. } => 7,
            Refusal::Unranked { .. } => 8,
        }
    }

    // Where it is, or how many there were.
    pub fn place(self) -> u64
        ensures { result ≡ (said self).1 }
    {
        match self {
            Refusal::Facts { at }
            | Refusal::Dependencies { at }
            | Refusal::Constants { at }
            | Refusal::Query { at }
            | Refusal::Unranked { at } => at,
            Refusal::Room { len } => len,
            Refusal::GivenUp { steps } => steps,
            Refusal::Answers { count } => count,
        }
    }
}

// As `refused 1 at 64`.
impl fmt::Display for Refusal {
    ghost output = { λ r. Some (codes "refused " ++ (decimal (said r).0 ++ (codes " at " ++ decimal (said r).1))) };

    fn fmt<W: fmt::Write>(&self, f: &mut fmt::Formatter<W>) -> fmt::Result {
        let number = self.number();
        let place = self.place();
        write!(f, "refused {number} at {place}")
    }
}
