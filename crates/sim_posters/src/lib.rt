//! The posters of a live run: each posts its section, in a thread of its own where one can be made, and comes back.
#![tactic(auto)]

mod posters;
#[cfg(test)]
mod tests;
mod worker;

pub use posters::{capacities_of, join_all, start_all};
pub use worker::{Ended, Section, Worker, start};
