//! What a validation by the code of an image says of the text for which the image stands.
#![tactic(auto)]

pub mod laws;
