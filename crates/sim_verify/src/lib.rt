//! Checks a trace from anywhere: whether it is the trace of the scenario before it.
#![tactic(auto)]

mod checker;
mod parts;
mod reading;
#[cfg(test)]
mod tests;
mod verdict;
mod verifying;

pub use reading::{Given, read_with_trace};
pub use verdict::{Verdict, Why, write_verdict};
pub use verifying::verify;
