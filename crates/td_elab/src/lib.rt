//! Elaboration: from trees to modules, in which each name is replaced by the place of what it names. The layer above
//! rests on one promise: `elaborate` answers the module that a tree stands for and, where it stands for none, the first
//! breach of a rule.
#![tactic(auto)]

mod casetypes;
mod definitions;
pub mod elaborate;
pub mod laws;
