//! What every answer to a text has in common: what contracts say of it, and the lines on many runs.
#![tactic(auto)]

mod summaries;
mod sums;

pub use summaries::write_summaries;
