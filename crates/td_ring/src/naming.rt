//! Facts on posts.

use std::marker::Brand;

/// Names a fact on posts, which holds of each post in a ring of this type. It has no calls.
pub trait Naming {
    ghost use Rattle.td_ring.specs.declared.post.Post.{Post};

    ghost names: { Post → Type 0 };
}

/// The fact that holds of every post; a proof may put another in its place.
impl Naming for Brand {
    ghost names = { λ _. Unit {0} };
}
