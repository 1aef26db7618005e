//! `tdc` over a source and two sinks: words, reading, module, C. The layer above rests on one promise: what `run_tdc` writes is
//! the file of C that its words ask for, of the code of the module for which its input stands, whose program tells what the
//! module means; or why there is none.
#![tactic(auto)]

mod answer;
pub mod laws;
mod tool;

pub use tool::{INPUT_LIMIT, run_tdc};
