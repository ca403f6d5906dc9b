//! Three bodies written by hand, a clock, a traveller and a customer: examples for who writes one.
//! The tests run the kernel with them. `sim_clock` and `sim_counter` are programs over the clock
//! and the customer.
#![tactic(auto)]

mod clock;
mod customer;
#[cfg(test)]
mod laws;
#[cfg(test)]
mod tests;
mod traveller;

pub use clock::{Clock, Pace};
pub use customer::{Counter, Customer};
pub use traveller::{Land, Traveller};
