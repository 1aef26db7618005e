//! Host jobs: which messages several guests post in one buffer that they go on writing, and how many workers validate
//! them, as a JSON text says it. The layer above rests on one promise: a text is answered with the host job that it stands
//! for, or with its first fault in the order of the fields, each exactly where the definition says so, out of memory apart.
#![tactic(auto)]

mod copies;
mod fields;
mod guests;
pub mod host_job;
pub mod laws;
mod rings;
mod scatter;
mod steps;
mod swaps;
mod totals;

pub use host_job::read_host_job;
