//! Where bytes come from and where they go. The layer above rests on one promise: a source or a sink counts its faults,
//! one for each call that answers `Failed` and none for any other, so the counts tell whose fault it was.
#![tactic(auto)]

mod adapters;
mod faults;
pub mod laws;
mod memory;
mod page;
mod quiet;
mod reading;
mod slices;
mod traits;
mod writing;

pub use adapters::{ReaderSource, WriterSink};
pub use faults::Faults;
pub use memory::{MemorySink, MemorySource};
pub use page::Page;
pub use quiet::{QuietSink, QuietSource};
pub use reading::{PIECE, ReadError, read_whole};
pub use slices::put;
pub use traits::{Failed, Sink, Source};
pub use writing::{WriteFault, write_all};
