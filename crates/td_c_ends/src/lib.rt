//! How a call of `tdc` ends once all is decided: one text goes to one sink, and the status follows. The layer above rests on
//! one promise: the line that tells a refusal, or the output, went out whole, or the status says that a write failed.
#![tactic(auto)]

mod finish;
mod lines;
mod refusal;
mod status;

pub use finish::{
    finish_bytes, finish_out_of_memory, finish_refused, finish_unanswered, finish_unread,
    finish_usage,
};
pub use refusal::{InputError, Refusal, of_module};
pub use status::Status;
