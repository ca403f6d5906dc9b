//! The law of bodies that ask for the same: the machine does not look into bodies, so their runs write the same lines. Nothing
//! of it runs.
#![tactic(auto)]
