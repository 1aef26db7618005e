//! The code of each module text is within the format of images: laws alone. The layer above, which writes images, rests on
//! them.
#![tactic(auto)]

pub mod laws;
