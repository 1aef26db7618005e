//! The answer to an input of `host`: its job is read, armed and served, and the replies and takes are handed out with what names them
//! in a report. The layer above rests on one promise: they are those of the input's job, served by seats of one buffer and passes of
//! one ring. That these are the ones that the call opened is promised by `Host::serve`, which it goes through.
#![tactic(auto)]

pub mod gates;
pub mod laws;
pub mod rings;
pub mod served_input;
