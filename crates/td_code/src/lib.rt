//! Modules as code: the code of a checked module, its listing and its image. The layer above rests on one promise: it is
//! code that the verifier accepts and that does, from each entry point, what the module means.
#![tactic(auto)]

mod compile;
pub mod laws;

pub use compile::{code_listing, code_of, packed_image};
