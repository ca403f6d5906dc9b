//! Numbers that rise, and the place of each that has one.
#![tactic(auto)]

mod entries;
mod index;

pub use index::Index;
