//! Host jobs as data: several guests, each with a script of stores and posts over one buffer, and the replies to their
//! posts. The layer above rests on the definitions: which posts a job has, under which names, how many stores stand before
//! each, which words are stored, and which jobs a host can serve.
#![tactic(auto)]

pub mod copies;
pub mod job;
pub mod laws;
pub mod limits;
pub mod mail;
pub mod name;
pub mod reply;
pub mod ring;

pub use job::{HostJob, Step};
pub use mail::Mail;
pub use name::PostName;
pub use reply::Reply;
pub use ring::RingJob;
