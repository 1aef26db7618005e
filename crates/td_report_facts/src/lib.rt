//! What the report of a run tells. The layer above rests on one promise: what a report prints of a good job's run, or of a
//! reply to a post of a good host job, are names that are words, and numbers of 64 bits, so it can be read back.
#![tactic(auto)]

pub mod laws;
