//! A ring of posts that threads share.

ghost use Rattle.std.specs.Prelude.{◌≡◌, ◌<◌, List, length, IfOk, IfErr, OnOk, OnErr, IfSome, None};
ghost use Rattle.crossbeam_queue.specs.Fifo.{Held};
ghost use Rattle.td_words.specs.History.{stores};
ghost use Rattle.td_ring.specs.declared.post.Post.{Post};
ghost use Rattle.td_ring.specs.Heads.{HasHead};
ghost use Rattle.td_ring.specs.Ring.{both_heads, only_put, only_take, did_post, did_take, pass_with, pass_state, one_more_put, new_put, one_more_take, new_take, with_put, with_take, with_takes, Settled, Stood};

use crate::naming::Naming;
use crate::passes::{PostPass, TakePass};
use crate::post::{Full, Post};
use crate::rule::{
    AllTakes, EndedPuts, EndedTakes, Ends, KeepsPosts, MorePuts, MoreTakes, Posts, Settles, Takes,
};
use crate::view::RingView;
use crossbeam_queue::RuledArrayQueue;
use std::alloc::{AllocError, Global};
use std::marker::Model;
use std::sync::Wait;
use td_words::seats::GuestSeat;

/// A ring of posts of which J's fact holds, with room for a fixed number of them. A contract sees its queue and that number.
#[derive(Drop)]
pub struct Ring<J: Naming> {
    queue: RuledArrayQueue<Post, RingView, KeepsPosts<J>>,
}

impl<J: Naming> Model for Ring<J> {
    ghost use Rattle.crossbeam_queue.specs.Passes.{ruled_capacity};
    ghost use Rattle.td_ring.specs.Ring.{RingState};

    ghost Value = { RingState };

    ghost view = { λ r. record { queue = r.queue.table.shared.table_id; capacity = ruled_capacity r.queue } };
}

impl<J: Naming> Ring<J> {
    /// An empty ring with room for `cap` posts, and the two passes that make the others, one that posts and one that takes.
    /// `AllocError`: there was no memory for it.
    pub fn new(alloc: Global, cap: u32) -> Result<(Ring<J>, PostPass, TakePass), AllocError>
        requires { 0 < cap }
        ensures capacity { IfOk result (λ r. r.0.capacity ≡ cap) }
        ensures posts { IfOk result (λ r. r.1 ≡ pass_state r.0.queue (only_put both_heads)) }
        ensures takes { IfOk result (λ r. r.2 ≡ pass_state r.0.queue (only_take both_heads)) }
    {
        let (queue, mut first) = RuledArrayQueue::<Post, RingView, KeepsPosts<J>>::ruled(
            alloc,
            cap as usize,
        )?;
        let second = queue.another::<Ends>(&mut first);
        Ok((
            Ring { queue },
            PostPass { pass: first },
            TakePass { pass: second },
        ))
    }

    /// Makes a pass that posts and made no post yet, by the pass that `new` gave. This takes no memory.
    pub fn split_post(&self, pass: &mut PostPass) -> PostPass
        requires own { pass.old.queue ≡ self.now.queue }
        requires head { HasHead pass.old.view.put_head }
        ensures kept { pass.new ≡ pass_with pass.old (one_more_put pass.old.view) }
        ensures given { result ≡ pass_with pass.old (new_put pass.old.view) }
    {
        PostPass {
            pass: self.queue.another::<MorePuts>(&mut pass.pass),
        }
    }

    /// Makes a pass that takes and took nothing yet, by the pass that `new` gave. This takes no memory.
    pub fn split_take(&self, pass: &mut TakePass) -> TakePass
        requires own { pass.old.queue ≡ self.now.queue }
        requires head { HasHead pass.old.view.take_head }
        ensures kept { pass.new ≡ pass_with pass.old (one_more_take pass.old.view) }
        ensures given { result ≡ pass_with pass.old (new_take pass.old.view) }
    {
        TakePass {
            pass: self.queue.another::<MoreTakes>(&mut pass.pass),
        }
    }

    /// Takes a pass back, with all that it posted.
    pub fn gather_post(&self, pass: &mut PostPass, other: PostPass)
        requires own { (pass.old.queue ≡ self.now.queue) × (other.queue ≡ self.now.queue) }
        requires head { HasHead pass.old.view.put_head }
        ensures { pass.new ≡ pass_with pass.old (with_put pass.old.view other.view) }
    {
        let PostPass { pass: other } = other;
        self.queue.absorb::<EndedPuts>(&mut pass.pass, other);
    }

    /// Takes a pass back, with all that it took.
    pub fn gather_take(&self, pass: &mut TakePass, other: TakePass)
        requires own { (pass.old.queue ≡ self.now.queue) × (other.queue ≡ self.now.queue) }
        requires head { HasHead pass.old.view.take_head }
        ensures { pass.new ≡ pass_with pass.old (with_take pass.old.view other.view) }
    {
        let TakePass { pass: other } = other;
        self.queue.absorb::<EndedTakes>(&mut pass.pass, other);
    }

    /// Takes the pass that takes and that `new` gave into the one that posts, and tells of all passes that were gathered:
    /// there is one list of all posts made, and what was taken is a prefix of it.
    pub fn settle(&self, pass: &mut PostPass, takes: TakePass)
        requires own { (pass.old.queue ≡ self.now.queue) × (takes.queue ≡ self.now.queue) }
        requires heads { HasHead pass.old.view.put_head × HasHead takes.view.take_head }
        ensures view { pass.new ≡ pass_with pass.old (with_takes pass.old.view takes.view) }
        ensures told { (items : List Post) × Settled pass.new.view items }
    {
        let TakePass { pass: takes } = takes;
        self.queue.absorb::<AllTakes>(&mut pass.pass, takes);
        self.queue.learn_as::<Settles>(&mut pass.pass);
    }

    /// Posts by a pass and the seat of the guest whose post it is: the pass has just that post more. J's fact holds of the
    /// post, and `made` is how many stores the seat made. `Full` has the post as it was; at a moment of the call the ring held
    /// as many posts as it has room for, and its rule held of them and of what all passes then knew (`Stood`).
    pub fn post<R: Wait>(
        &self,
        rt: &R,
        pass: &mut PostPass,
        _seat: &GuestSeat,
        post: Post,
    ) -> Result<(), Full>
        requires own { pass.old.queue ≡ self.now.queue }
        requires made { post.made ≡ length (stores _seat.now.view.steps) }
        requires named { J.names post }
        ensures posted { OnOk result (pass.new ≡ pass_with pass.old (did_post pass.old.view post)) }
        ensures back { IfErr result (λ e. e.post ≡ post) }
        ensures same { OnErr result (pass.new ≡ pass.old) }
        ensures full { OnErr result (Held self.now.capacity (Stood J.names pass.old.view)) }
    {
        match self.push(rt, pass, post) {
            Ok(()) => Ok(()),
            Err(post) => Err(Full { post }),
        }
    }

    /// As `post`, without the seat.
    fn push<R: Wait>(&self, rt: &R, pass: &mut PostPass, post: Post) -> Result<(), Post>
        requires own { pass.old.queue ≡ self.now.queue }
        requires named { J.names post }
        ensures posted { OnOk result (pass.new ≡ pass_with pass.old (did_post pass.old.view post)) }
        ensures back { IfErr result (λ x. x ≡ post) }
        ensures same { OnErr result (pass.new ≡ pass.old) }
        ensures full { OnErr result (Held self.now.capacity (Stood J.names pass.old.view)) }
    {
        self.queue.push_as::<Posts<J>, R>(rt, &mut pass.pass, post)
    }

    /// Takes the oldest post by a pass, which has just that take more. None: at a moment of the call the ring held no post, and
    /// its rule held of what all passes then knew (`Stood`).
    pub fn take<R: Wait>(&self, rt: &R, pass: &mut TakePass) -> Option<Post>
        requires own { pass.old.queue ≡ self.now.queue }
        ensures taken { IfSome result (λ x. pass.new ≡ pass_with pass.old (did_take pass.old.view x)) }
        ensures named { IfSome result (λ x. J.names x) }
        ensures same { result ≡ None → pass.new ≡ pass.old }
        ensures empty { result ≡ None → Held 0 (Stood J.names pass.old.view) }
    {
        self.queue.pop_as::<Takes<J>, R>(rt, &mut pass.pass)
    }
}
