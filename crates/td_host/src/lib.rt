//! A host: it serves the posts of several guests by several workers, and looks at the guests' rings, each in a thread of its
//! own, over one buffer that the guests go on writing, while the module by which messages are validated is replaced by others.
//! The layer above rests on one promise, the definition `ServedVersions`: there is one reply for each post and no other; its
//! outcome is the meaning of the module of the reply's version on every list of bytes that carries its loads; what the seats of
//! the buffer and the passes of the ring did is what the scripts say; each worker answered under the versions that it loaded,
//! which never fall; and each take of a ring is what its own seat loaded of the ring and of the message that the ring's
//! descriptor named. It holds if `serve` returns. Nothing is said of progress.
#![tactic(auto)]

pub mod arm;
pub mod desk;
pub mod gather;
pub mod host;
pub mod job;
pub mod laws;
mod lists;
pub mod order;
mod rings;
mod rooms;
mod script;
pub mod serve;

pub use host::{Host, ServedJob};
