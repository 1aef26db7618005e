//! Tests of what no clause of the crates on bytes, jobs, reports and formats says: that memory which is there suffices, that a
//! read or a write which fails is answered as that, and how values and errors print. Nothing stands on this crate.
#![tactic(auto)]

#[cfg(test)]
mod bytes;
#[cfg(test)]
mod jobs;
#[cfg(test)]
mod messages;
#[cfg(test)]
mod reports;
#[cfg(test)]
mod values;
