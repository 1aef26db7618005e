//! The whole tool over a source and two sinks: words, reading, module, job, validation, report. The layer above rests on one
//! promise: what `run_alone`, and `run_hosted` after it, write is what the command answers the input: for `check` whether
//! its text is a module, for `tidy` the canonical text of that module's tree, for `code` and `pack` the listing and the
//! image of its code, which does what the module means, for `run` the report of the meaning on every list that carries the
//! loads made.
#![tactic(auto)]

mod bench;
mod check;
mod code;
mod finish;
mod host;
pub mod laws;
mod lines;
mod pack;
mod run;
mod status;
mod tidy;
mod tool;
mod totals;

pub use finish::finish_out_of_memory;
pub use status::Status;
pub use td_cli_command::command::{Command, MOST_MESSAGES, Reading};
pub use td_cli_input::refusal::Refusal;
pub use tool::{INPUT_LIMIT, run_alone, run_hosted, run_tool};
pub use totals::Totals;
