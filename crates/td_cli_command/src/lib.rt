//! The words of a command line. The layer above rests on one promise: `command_of` answers the command that the words mean,
//! and none exactly where they mean none. `clap` is loaded by this crate alone.
#![tactic(auto)]

pub mod command;
