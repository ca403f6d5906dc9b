//! What each change of the parts of a kernel makes of the states that they stand for. Nothing of it runs.
#![tactic(auto)]
