//! The passes of a ring. A pass has no bytes: it stands for what its owner did. No pass can be copied, so each has one list
//! of posts or takes.

use crate::post::Post;
use crate::view::RingView;
use crossbeam_queue::Pass;
use std::marker::Model;

/// A pass that posts. A contract sees its queue and its view.
#[derive(Drop)]
pub struct PostPass {
    pub(crate) pass: Pass<Post, RingView>,
}

impl Model for PostPass {
    ghost use Rattle.std.specs.Prelude.{◌≡◌, []};
    ghost use Rattle.crossbeam_queue.specs.Passes.{view as known};
    ghost use Rattle.td_ring.specs.Ring.{PassState, CanPost};

    ghost Value = { PassState };

    ghost view = { λ p. record { queue = p.pass.table_id; view = known p.pass } };

    ghost invariant = { λ p. (p.pass.me.1 ≡ []) × CanPost (known p.pass) };
}

/// A pass that takes. A contract sees its queue and its view.
#[derive(Drop)]
pub struct TakePass {
    pub(crate) pass: Pass<Post, RingView>,
}

impl Model for TakePass {
    ghost use Rattle.std.specs.Prelude.{◌≡◌, []};
    ghost use Rattle.crossbeam_queue.specs.Passes.{view as known};
    ghost use Rattle.td_ring.specs.Ring.{PassState, CanTake};

    ghost Value = { PassState };

    ghost view = { λ p. record { queue = p.pass.table_id; view = known p.pass } };

    ghost invariant = { λ p. (p.pass.me.1 ≡ []) × CanTake (known p.pass) };
}
