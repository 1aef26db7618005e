//! The parser's productions of the parts of definitions: parameters, fields, actions, and what stands in them. The layer above
//! rests on one promise: each function gives what the reader of its production gives. Statements nest to the limit on open
//! braces, and no deeper.
#![tactic(auto)]

mod actions;
pub mod arguments;
pub mod arrays;
pub mod fields;
pub mod parameters;
mod places;
mod simple_statements;
