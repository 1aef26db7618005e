//! Messages of the four formats, made by number: one text of modules, and messages of which each is accepted, to measure and
//! to try the tool with. The layer above rests on one promise: message n is the one that its definition names, byte by byte.
#![tactic(auto)]

mod bytes;
mod fillers;
pub mod job;
pub mod kind;
pub mod laws;

pub use job::{make_job, message_job};
pub use kind::format_of;
