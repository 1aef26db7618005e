//! Module texts, from bytes to modules. The layer above rests on one promise: `check_module` answers the module for
//! which a text stands and, where it stands for none, the one refusal of that text, with its place.
#![tactic(auto)]

mod check;
mod error;
pub mod laws;
mod line;
mod passes;
mod spelled;

pub use check::{CheckedInput, check_input, check_module};
pub use error::FrontError;
pub use line::{ErrorLine, line_of};
