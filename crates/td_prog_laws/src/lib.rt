//! Laws of written programs: a compiler of C accepts them, and what the caller of an entry point is after_helper.
#![tactic(auto)]

pub mod laws;
