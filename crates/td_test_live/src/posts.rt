//! Posts for the tests, with no room in them.

ghost use Rattle.std.specs.Prelude.{◌≡◌, IfOk};

use std::alloc::{AllocError, Global};
use td_core::outcome::Verdict;
use td_posts::name::PostName;
use td_posts::reply::Reply;
use td_ring::naming::Naming;
use td_ring::post::Post;
use td_stream::copies::Copies;
use td_stream::loads::Loads;

/// Every post will do.
pub struct Any;

impl Naming for Any {
    ghost names = { λ _. Unit {0} };
}

/// A post of a guest, by its number, that was not made yet, with an empty reply as its room.
pub fn post(alloc: Global, guest: u32, number: u32) -> Result<Post, AllocError>
    ensures { IfOk result (λ p. p.made ≡ 0) }
{
    Ok(Post {
        name: PostName { guest, number },
        made: 0,
        room: Reply {
            guest,
            number,
            version: 0,
            layout: None,
            verdict: Verdict::Accept { pos: 0 },
            trace: Vec::new(alloc),
            cells: Vec::new(alloc),
            copies: Copies::with_rooms(alloc, &[])?,
            loads: Loads::with_room(alloc, 0)?,
        },
    })
}
