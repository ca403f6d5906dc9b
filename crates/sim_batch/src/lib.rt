//! Replications: one run after another by its index, several of them at once.
#![tactic(auto)]

mod gate;
mod job;
mod shares;
#[cfg(test)]
mod tests;

pub use gate::{FreeGate, Gate};
pub use job::Job;
pub use shares::batch;
