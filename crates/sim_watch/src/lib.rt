//! What is measured at resources over a run.
#![tactic(auto)]

mod runs;
mod watched;

pub use runs::{WatchReport, watch};
