//! The report of a host: a line and the report of a run for each reply. The layer above rests on one promise: the sink gets
//! the whole text that the definition names, or a prefix of it where a write failed.
#![tactic(auto)]

pub mod laws;
pub mod report;
mod run;
mod takes;
