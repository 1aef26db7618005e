//! What the code of a module does, from the code's own entry points.
#![tactic(auto)]

pub mod laws;
