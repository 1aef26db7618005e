//! The grammar: productions made of others, each with the tokens that spell a value, the tokens that pass a limit, and
//! the way to read it. The layer above rests on one promise: tokens spell at most one tree, and they either spell one within
//! the limits, or have exactly one first token that is refused, or exactly one first token that passes a limit.
#![tactic(auto)]

pub mod laws;
pub mod limits;
