//! Run jobs: which message is validated, from which entry point, and what others store to it meanwhile, as a JSON text
//! says it. The layer above rests on one promise: a text is answered with the job that it stands for, or with its first
//! fault in the order of the fields, each exactly where the definition says so, out of memory apart. The readers of single
//! fields are those of any job, so that of host jobs reads its fields by them too.
#![tactic(auto)]

pub mod checks;
pub mod error;
pub mod json;
pub mod laws;
pub mod named;
pub mod run_job;
pub mod stores;
pub mod stretches;
pub mod valued;
pub mod values;
pub mod words;
pub mod written;

pub use error::{JobError, JobRule};
pub use run_job::{RunJob, read_run_job};
pub use words::fill_words;
