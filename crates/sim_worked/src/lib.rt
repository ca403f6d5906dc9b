//! Worked runs and faults: texts whose printed traces, or whose faults, are computed from the definitions alone. Nothing
//! of it runs, and no crate stands on it.
#![tactic(auto)]
