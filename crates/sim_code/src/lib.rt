//! A scenario text as a scenario, or the fault of its first faulty line.
#![tactic(auto)]

mod draft;
mod link;
mod reading;
mod statement;

pub use reading::{ReadError, read};
pub use sim_scenario::Scenario;
