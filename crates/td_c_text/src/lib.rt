//! The C of a module. The layer above rests on one promise: the bytes of each file are the text of the program of the code
//! that is written of the module, and that program tells what the module means, whatever memory gives to its loads.
#![tactic(auto)]

mod head;
pub mod laws;
mod text;

pub use text::{c_header, c_parts, c_source};
