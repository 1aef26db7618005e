//! What the program of a code does on memory that stays: instruction by instruction, block by block, routine by routine.
#![tactic(auto)]

pub mod laws;
