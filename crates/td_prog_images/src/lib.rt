//! Laws of the C of an image, whoever made it.
#![tactic(auto)]

pub mod laws;
