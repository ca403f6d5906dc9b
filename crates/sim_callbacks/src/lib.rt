//! Lists of callbacks, as chains of nodes in one slab.
#![tactic(auto)]

mod callback;
mod chain;
mod nodes;

pub use chain::Chain;
pub use nodes::Nodes;
