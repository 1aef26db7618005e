//! Inputs of `run` and `host`: a module text, a line that is exactly `%%`, and a job; and why an input is refused. The layer
//! above rests on one promise: an input is parted into the module and the job that it stands for, or refused for its first
//! fault, each exactly where the definition says so, out of memory apart.
#![tactic(auto)]

pub mod host;
pub mod refusal;
pub mod run;
pub mod split;
mod text;
