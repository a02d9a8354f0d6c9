// What can be left out: implied dependencies, and facts that the core does without; and moving in two stages.
#![tactic(auto)]

mod block;
mod core_row;
mod distinct;
mod freeze;
mod homomorphism;
mod judge;
mod laws;
mod mapping;
mod redundant;
mod rules;
mod spare;
mod stages;
mod two_stages;

pub use core_row::core_of;
pub use judge::implied;
pub use laws::{
    apart_tested, core_right, core_universal, cores_universal, homomorphism_tested,
    implied_at_universal, implied_in_every_order, implied_may_go, implied_where_it_ends,
    only_tgds_tested, reduced_right, small_examples, tgds_never_fail, tgds_only_add,
    two_stages_in_every_order, two_stages_right, two_stages_where_it_ends, universal_carried,
};
pub use redundant::reduce;
pub use two_stages::move_in_two;
