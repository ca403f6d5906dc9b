//! The generated machine shop: a text of the scenario language for each number of machines.
#![tactic(auto)]

mod shop;

pub use shop::shop_text;
