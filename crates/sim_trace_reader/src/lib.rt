//! Reads the lines of a trace.
#![tactic(auto)]

mod cutting;
mod event;
mod line;
mod number;
#[cfg(test)]
mod tests;

pub use line::parse_line;
