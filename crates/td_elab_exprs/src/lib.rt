//! Expressions elaborated: sorts, core expressions and breaches in one walk. The layer above rests on one promise: what is
//! answered is what the definitions of td_elab_rules say of the tree, and the first breach is kept beside it.
#![tactic(auto)]

pub mod cores;
pub mod expressions;
pub mod findings;
pub mod look_up;
pub mod sorts;
