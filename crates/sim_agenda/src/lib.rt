//! What is scheduled, and which of it is due next.
#![tactic(auto)]

mod agenda;
mod backlog;
mod heap;
mod series;
mod window;

pub use agenda::Agenda;
