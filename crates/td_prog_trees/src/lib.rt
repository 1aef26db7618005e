//! Trees of loads: plays of them over memory that others change, when they agree with exits of code, and the helpers that take numbers.
#![tactic(auto)]

pub mod laws;
