// What the programs read and print: numbers from bytes, and facts and refusals as lines of text.
#![tactic(auto)]

mod bytes;
mod lines;
mod slices;
mod stream;

pub use bytes::numbers;
pub use lines::{push_fact, push_facts, push_impossible, push_refusal, push_row, push_value};
pub use slices::{behind, split_first};
pub use stream::{query_behind, rules_behind};
