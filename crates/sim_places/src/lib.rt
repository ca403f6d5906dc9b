//! The place of what is looked for in a queue.
#![tactic(auto)]

mod search;

pub use search::find_place;
