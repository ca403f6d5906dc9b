//! Runs of any body, written line by line.
#![tactic(auto)]

mod fault;
mod lines;
mod runs;

pub use fault::RunFault;
pub use lines::write_line;
pub use runs::{write_end, write_run};
