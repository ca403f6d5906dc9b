//! Bodies written by hand that remember no events and open no scopes.
#![tactic(auto)]

mod op;
mod plain;

pub use op::PlainOp;
pub use plain::{Plain, PlainBody};
