//! Runs by a module's code: the machine in the direct validator's place, over any words, and over words to which others store by
//! a plan. The layer above rests on one promise: the outcome is the module's on every message that carries the loads, and exactly
//! the words with a byte among the reads were loaded. All memory is taken before the first load, so want of it never hides an
//! outcome.
#![tactic(auto)]

pub mod load_count;
pub mod planned;
pub mod validation;

pub use validation::{validate_compiled, validate_recorded, validate_with_steps};
