//! Lowered code keeps the rules of the verifier: laws alone. The layer above rests on one promise: code that is a checked
//! module's blocks, laid out, is accepted.
#![tactic(auto)]

pub mod laws;
