//! The order of things that use one another, and which reach which. The layer above rests on one promise: the order is the one
//! that its definition gives, in time that grows as the uses do, and what is reached is exactly that.
#![tactic(auto)]

mod components;
mod enlisting;
mod flags;
pub mod heights;
pub mod order;
pub mod reach;
mod searching;
mod waiting;
