//! Whole runs: a scenario is run, and its trace is written.
#![tactic(auto)]

mod refusal;
mod report;
mod runs;
mod session;

pub use refusal::refuse;
pub use report::Report;
pub use runs::{Next, next_of, replicate, run, write_end};
pub use session::{Session, Turn};
pub use sim_writing::RunFault as EngineFault;
