//! Posts.

use std::fmt;
use td_posts::name::PostName;
use td_posts::reply::Reply;
use thiserror::Error;

/// A message that a guest posted: its name, how many stores its guest had made before, and the room for its reply.
#[derive(Drop)]
pub struct Post {
    pub name: PostName,
    pub made: u32,
    pub room: Reply,
}

/// The ring was full. It holds the post, which was not made.
#[derive(Drop, Error)]
#[error("ring full")]
pub struct Full {
    pub post: Post,
}

impl fmt::Debug for Full {
    fn fmt<W: fmt::Write>(&self, f: &mut fmt::Formatter<W>) -> fmt::Result {
        f.debug_struct("Full").finish_non_exhaustive()
    }
}
