//! That clauses on what a calendar shows are exact, and what each change of a calendar, of its events and of its holders
//! keeps. Nothing of it runs.
#![tactic(auto)]

mod laws;

pub use laws::{seen_alike, shows_seen};
