//! Names of posts.

/// The name of a post: the guest that makes it, and which of its posts it is, both counted from 1.
#[derive(Clone, Copy, PartialEq, Eq)]
pub struct PostName {
    pub guest: u32,
    pub number: u32,
}
