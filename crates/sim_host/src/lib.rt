//! Many runs of one scenario, hosted as futures on one thread.
#![tactic(auto)]

mod all;
mod answer;
mod hosted;
mod hosting;
#[cfg(test)]
mod tests;
mod top;

pub use all::HostAll;
pub use hosted::Hosted;
pub use hosting::{close_all, host, open_all};
pub use top::host_desk;
