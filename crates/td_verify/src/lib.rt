//! The verifier: which code may be run. The layer above rests on two promises: code is accepted exactly where each of
//! its instructions keeps each of seven rules, and is refused with the first instruction that breaks one and the lowest
//! rule that it breaks; and code that is accepted has all that a machine needs to run it without a test that could fail.
#![tactic(auto)]

pub mod bracket;
mod contexts;
pub mod laws;
mod operands;
mod routine;
pub mod rule;
mod rules;
pub mod shape;
pub mod verify;
mod ways;

pub use rule::{Breach, Rule, VerifyError};
pub use verify::Verified;
