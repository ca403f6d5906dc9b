//! The laws of runs that are made again: a text with a printed journal behind its other lines says the same with that journal,
//! that a scenario has another journal by itself, or posters, changes nothing of a run on a journal, and a batch can be split by
//! its seeds. Nothing of it runs.
#![tactic(auto)]

mod batches;
mod journals;
mod replays;

pub use batches::parts_of_batches;
pub use journals::texts_with_journals;
pub use replays::replayed_runs;
