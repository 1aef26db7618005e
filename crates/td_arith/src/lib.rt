//! The safety rule of a module, and what follows from it. The layer above rests on two promises: a module is admitted
//! exactly where each operator is safe under the facts at its place, else the first in the order of the text that isn't is
//! named; and in an admitted module every expression that the meaning evaluates lies in its type's range.
#![tactic(auto)]

pub mod actions;
pub mod casetypes;
pub mod comparisons;
pub mod error;
pub mod expressions;
pub mod facts;
pub mod fields;
pub mod laws;
pub mod learning;
pub mod modules;
pub mod values;
pub mod walk;
