//! Compiles a module into code. The layer above rests on one promise: the code of a checked module is accepted by the
//! verifier, and is the module's blocks, laid out.
#![tactic(auto)]

pub mod lower;
mod maps;
mod routines;
mod sets;
mod tables;
