//! The law of scripts: in which states a script of a scenario can be, and that each poll of one keeps the law of bodies.
//! Nothing of it runs.
#![tactic(auto)]
