//! The scenario language: which texts are scenarios and what they say, why other texts are refused, and the lines that
//! are written. The words stand here as plain types; all else are definitions for contracts.
#![tactic(auto)]

mod form;
mod shape;

pub use form::{Form, Meaning, Section, Sort, Version};
pub use shape::{Ahead, Choice, Fixed, Item, Reference, Role};
