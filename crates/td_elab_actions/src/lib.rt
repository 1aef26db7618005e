//! Actions elaborated: the statements of a field's action as a core action, the paths through them, the names that they
//! give. The layer above rests on one promise: `action` answers the core action of the definitions, and keeps the first
//! breach beside it.
#![tactic(auto)]

pub mod actions;
pub mod cells;
mod pieces;
pub mod scopes;
mod steps;
mod ways;
