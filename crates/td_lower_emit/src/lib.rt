//! Counts the registers of a definition's code, and writes the code of the constructs of the language. The layer above rests on
//! two promises: the counts are those of the definitions, and what is written for a construct is its block, laid out where it
//! was written.
#![tactic(auto)]

pub mod actions;
pub mod arrays;
pub mod copies;
pub mod counts;
pub mod definitions;
pub mod elements;
pub mod expressions;
pub mod fields;
pub mod levels;
pub mod tops;
pub mod writer;
