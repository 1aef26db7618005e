//! The rule of a ring's queue, and what its steps tell.

use crate::naming::Naming;
use crate::post::Post;
use crate::view::RingView;
use crossbeam_queue::protocol::{Join, Lesson, Outcome, Protocol, Split};
use std::marker::PhantomData;

/// What was taken is a prefix of what was posted, the queue holds the rest, and J's fact holds of each post in it.
pub(crate) struct KeepsPosts<J> {
    naming: PhantomData<J>,
}

impl<J: Naming> Protocol<Post, RingView> for KeepsPosts<J> {
    ghost use Rattle.td_ring.specs.Ring.{KeepsPosts, both_heads};

    ghost holds = { KeepsPosts J.names };

    ghost first = { both_heads };
}

/// A post, or what a full ring tells.
pub(crate) struct Posts<J> {
    naming: PhantomData<J>,
}

impl<J: Naming> Outcome<Post, RingView> for Posts<J> {
    ghost use Rattle.std.specs.Prelude.{◌≡◌};
    ghost use Rattle.td_ring.specs.Ring.{did_post};

    ghost then = { λ v x w. w ≡ did_post v x };
}

impl<J: Naming> Lesson<Post, RingView> for Posts<J> {
    ghost use Rattle.td_ring.specs.Ring.{Stood};

    ghost fact = { Stood J.names };
}

/// A take, of a post of which J's fact holds, or what an empty ring tells.
pub(crate) struct Takes<J> {
    naming: PhantomData<J>,
}

impl<J: Naming> Outcome<Post, RingView> for Takes<J> {
    ghost use Rattle.std.specs.Prelude.{◌≡◌};
    ghost use Rattle.td_ring.specs.Ring.{did_take};

    ghost then = { λ v x w. (w ≡ did_take v x) × J.names x };
}

impl<J: Naming> Lesson<Post, RingView> for Takes<J> {
    ghost use Rattle.td_ring.specs.Ring.{Stood};

    ghost fact = { Stood J.names };
}

/// What the ring tells the pass that gathered the others.
pub(crate) struct Settles;

impl Lesson<Post, RingView> for Settles {
    ghost use Rattle.td_ring.specs.Ring.{Settled};

    ghost fact = { Settled };
}

/// The first pass of the queue is cut in two: one posts, the other takes.
pub(crate) struct Ends;

impl Split<RingView> for Ends {
    ghost use Rattle.td_ring.specs.Ring.{only_put, only_take};

    ghost left = { only_put };

    ghost right = { only_take };
}

/// One more pass that posts.
pub(crate) struct MorePuts;

impl Split<RingView> for MorePuts {
    ghost use Rattle.td_ring.specs.Ring.{one_more_put, new_put};

    ghost left = { one_more_put };

    ghost right = { new_put };
}

/// One more pass that takes.
pub(crate) struct MoreTakes;

impl Split<RingView> for MoreTakes {
    ghost use Rattle.td_ring.specs.Ring.{one_more_take, new_take};

    ghost left = { one_more_take };

    ghost right = { new_take };
}

/// A pass that posts is gathered.
pub(crate) struct EndedPuts;

impl Join<RingView> for EndedPuts {
    ghost use Rattle.td_ring.specs.Ring.{with_put, no_view};

    ghost both = { with_put };

    ghost spent = { no_view };
}

/// A pass that takes is gathered.
pub(crate) struct EndedTakes;

impl Join<RingView> for EndedTakes {
    ghost use Rattle.td_ring.specs.Ring.{with_take, no_view};

    ghost both = { with_take };

    ghost spent = { no_view };
}

/// The first pass that takes is taken into the first that posts.
pub(crate) struct AllTakes;

impl Join<RingView> for AllTakes {
    ghost use Rattle.td_ring.specs.Ring.{with_takes, no_view};

    ghost both = { with_takes };

    ghost spent = { no_view };
}
