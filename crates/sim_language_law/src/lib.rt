//! The law of the scenario language: what is read is well-formed. Nothing of it runs.
#![tactic(auto)]

mod well_formed;

pub use well_formed::well_formed_scenarios;
