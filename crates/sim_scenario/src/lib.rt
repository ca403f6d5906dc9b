//! What a text says that is a scenario: made by the reader, run by the interpreter.
#![tactic(auto)]

mod needs;
mod scenario;

pub use scenario::Scenario;
