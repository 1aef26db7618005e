//! What expressions are worth, and the rule by which their values lie in their types' ranges. The layer above rests on
//! one promise: an expression whose operators are all safe has values in range wherever its facts hold.
#![tactic(auto)]

pub mod constant;
pub mod laws;
pub mod naming;
pub mod safety;
pub mod types;
pub mod value;
