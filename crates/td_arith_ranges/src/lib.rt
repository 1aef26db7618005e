//! Between which numbers an expression lies, and when two expressions are the same. The layer above, which has the safety
//! rule, rests on two promises: each step on ranges gives the range that the rule defines for it, and two expressions are told
//! to be the same exactly where the rule takes them to be.
#![tactic(auto)]

pub mod ends;
pub mod relations;
pub mod same;
pub mod within;
