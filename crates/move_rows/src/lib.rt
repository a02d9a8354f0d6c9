// Requests as plain values: facts and dependencies read from text, the rows of numbers that they are for the engine, and its replies in words.
#![tactic(auto)]

mod list;
mod model;
mod moves;
mod rows;
mod text;

pub use list::{Few, few_of};
pub use model::{Atom, Dependency, Fact, bounded};
pub use moves::{Moves, Words, persons};
pub use rows::{answers_of, dependencies_row, dependency_row, facts_of, facts_row, query_row};
pub use text::{read_atoms, read_dependency, read_facts};
