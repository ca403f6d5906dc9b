//! The texts of three models that are also written by hand: a bank, a machine shop and a car wash.
#![tactic(auto)]

mod texts;

pub use texts::{Model, model_text};
