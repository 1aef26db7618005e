//! What the passes over a text say of its module: names that are words, and the limits on trees as limits on modules. The
//! layer above rests on one promise: the laws hold of each module that an admitted tree stands for.
#![tactic(auto)]

pub mod laws;
