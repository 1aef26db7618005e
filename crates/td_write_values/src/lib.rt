//! Values as trees, and what it is to write one by a type. A contract sees a `Datum`, which has no boxes. The definitions
//! that the writer meets stand in specs/: which bytes spell a value, and where a value is refused.
#![tactic(auto)]

pub mod error;
pub mod limits;
pub mod value;

pub use error::{Path, WriteError, WriteRule};
pub use limits::MOST_WRITTEN;
pub use value::{Value, ValueKind, Values};
