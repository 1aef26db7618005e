//! An input as one tree: the definitions of parts one after the other, each part after those that it uses, with the names
//! that they have in the whole text. The layer above rests on one promise: the tree is the one that its definition gives,
//! or a part has the name of another, or parts use each other in a cycle, each with its first place.
#![tactic(auto)]

mod actions;
mod cycle;
mod definitions;
pub mod error;
mod expressions;
mod fields;
pub mod flatten;
mod graph;
mod heads;
pub mod laws;
pub mod marks;
mod names;
pub mod own;
mod parts;
mod uses;
