// Conjunctive queries: their answers in an instance, and which of them are certain.
#![tactic(auto)]

mod ask;
mod certain;
mod laws;
mod query;
mod read;
mod rows;
#[cfg(test)]
mod tests;
mod values;

pub use ask::answers;
pub use certain::certain_answers;
pub use laws::{
    answers_along, certain_more, certain_universal, no_solution_more, rows_exact, universal_same,
    worked_answers,
};
pub use query::{Query, Row};
pub use read::read_query;
