//! What was written of a value is accepted by whatever validates it, with the outcome that the writer answered, whatever else the
//! memory holds.
#![tactic(auto)]

pub mod laws;
