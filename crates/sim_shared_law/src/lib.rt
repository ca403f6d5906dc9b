//! What each change at a resource, and of time and what happens in it, makes of the facilities that are shown. Nothing of it
//! runs.
#![tactic(auto)]
