//! What a run came to.
use sim_types::Summary;

/// What a run came to, and how many units it made.
#[derive(Clone, Copy, Debug, PartialEq, Eq)]
pub struct Report {
    pub summary: Summary,
    pub units: u32,
}
