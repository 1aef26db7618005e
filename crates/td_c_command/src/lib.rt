//! The words of a command line of `tdc`, and the names that begin names of C. The layer above rests on one promise:
//! `command_of` answers the command that the words mean, and none exactly where they mean none.
#![tactic(auto)]

pub mod command;
mod prefix;

pub use prefix::is_prefix;
