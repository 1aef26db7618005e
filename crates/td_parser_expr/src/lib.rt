//! The parser's productions of one token and of expressions. The layer above rests on one promise: each function gives what
//! the reader of its production gives (`Gives`): the value and the tokens after it, or where reading fails and why, unless
//! memory runs out. Nothing is nested deeper than the limit on an expression allows.
#![tactic(auto)]

pub mod expressions;
pub mod failure;
pub mod scan;
pub mod sizeof;
pub mod tier;
pub mod token;
pub mod unary;
pub mod whole;
