// Facts, atoms and dependencies over borrowed numbers: their layout, reading, checking and refusals.
#![tactic(auto)]

mod atom;
mod bounded;
mod check;
mod dependency;
mod fact;
mod inspect;
mod instance;
mod laws;
mod read;
mod refusal;
mod request;
mod term;
mod write;

pub use atom::Atom;
pub use bounded::Bounded;
pub use check::{
    FACTS_MAX, FIRST_NULL_MAX, INSTANCE_FACTS_MAX, INSTANCE_LEN, check_facts, constants_fault,
    read_dependencies, read_request,
};
pub use dependency::{Body, Dependency, Equated, Head};
pub use fact::Fact;
pub use inspect::{mentions, values_below};
pub use instance::{Instance, fact_values};
pub use laws::{no_solution_of_more, universal_equivalent};
pub use read::{read_terms, used_term};
pub use refusal::Refusal;
pub use request::{Dependencies, Facts, Request};
pub use term::Term;
