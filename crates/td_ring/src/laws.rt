//! Laws of what a ring and tickets tell. They do nothing when they are called.

ghost use Rattle.td_ring.specs.Laws.{TakesAreFirstPosts, DrawsAreCounted};

/// Where all passes were gathered and settled, the posts of all passes are one list, and the takes of all passes are the
/// first so many of it, each once.
pub fn takes_are_first_posts()
    ensures { TakesAreFirstPosts }
{}

/// Where all ticket seats were gathered and drew n times in all, they drew the numbers below n, modulo 2^64, one for each.
pub fn draws_are_counted()
    ensures { DrawsAreCounted }
{}
