//! Runs of verified code, whatever machine runs it. The layers above rest on four laws: a run comes to an answer, within the
//! message; each turn of a loop takes a byte; and a run takes no more steps than the code weighs, for each byte of the message
//! and once more.
#![tactic(auto)]

pub mod laws;
