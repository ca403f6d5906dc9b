//! The program: the words that it is called with, its top call, its exit status and its usage.
#![tactic(auto)]

mod call;
mod program;
#[cfg(test)]
mod tests;
mod words;

pub use call::run;
pub use program::{carry_out, simulate};
pub use words::words_of;
