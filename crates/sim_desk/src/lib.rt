//! The call that the program makes.
#![tactic(auto)]

mod answer;
mod replications;
mod top;
mod watching;

pub use top::desk;
