//! How much the deepest chain of calls of a written program takes.
#![tactic(auto)]

pub mod depth;
pub mod laws;
