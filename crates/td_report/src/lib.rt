//! The texts of the program: the report of a run, and the lines of errors. The layer above rests on one promise: the
//! sink gets the whole text that the definition names, or a prefix of it where a write failed.
#![tactic(auto)]

pub mod copies;
pub mod error_line;
pub mod hexadecimal;
pub mod laws;
pub mod outcome;
pub mod paged;
pub mod path_line;
pub mod pieces;
pub mod report;
pub mod summary;
mod written;

pub use copies::CopyBuffer;
pub use error_line::{Position, front_line, position_of};
pub use outcome::OutcomeParts;
pub use report::{report_of_parts, run_report};
pub use summary::module_summary;
