//! Runs of one module on memory that others store to. The layer above rests on one promise: what a memory gives to each
//! load decides the loads and the outcome.
#![tactic(auto)]

pub mod laws;
