//! Canonical texts. The layer above rests on one promise: `print` writes exactly the canonical text of a tree
//! (crate td_print_layout), whose tokens spell that tree again, its places aside.
#![tactic(auto)]

mod actions;
mod definitions;
mod expressions;
mod fields;
mod operators;
mod parameters;
mod parts;
mod printer;
mod printing;
mod words;

pub use printing::print;
