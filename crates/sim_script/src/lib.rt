//! Processes that do the statements of a scenario.
#![tactic(auto)]

mod arithmetic;
mod body;
mod frames;
mod mode;
mod script;
mod statement;

pub use script::Script;
