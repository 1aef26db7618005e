//! What holds of flat inputs, for the passes above. The layer above rests on one promise: an input has at most one of its
//! answers, and what passes no limit by count and is made of words as it is written does so flat.
#![tactic(auto)]

pub mod laws;
