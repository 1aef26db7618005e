//! Types of fields, with their arguments, elaborated. The layer above rests on one promise: what is answered is what the
//! definitions of td_elab_rules say of the type, and the first breach is kept beside it.
#![tactic(auto)]

pub mod arguments;
pub mod buffers;
mod signatures;
pub mod types;
