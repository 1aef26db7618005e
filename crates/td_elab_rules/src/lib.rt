//! What a tree of a module text stands for: the rules of the language, of which each break is a breach with its place,
//! and the module of a tree that breaks none. Here are definitions, and the plain data that they speak of; the layer
//! above has the code. It rests on one promise: what holds of each module that a tree stands for.
#![tactic(auto)]

pub mod actions;
pub mod breach;
pub mod expressions;
pub mod fields;
pub mod known;
pub mod laws;
pub mod parameters;
