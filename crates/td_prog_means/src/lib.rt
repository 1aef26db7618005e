//! What the program of a module's code tells its caller.
#![tactic(auto)]

pub mod laws;
