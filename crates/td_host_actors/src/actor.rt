//! What runs in a thread.

ghost use Rattle.std.specs.Prelude.{◌≡◌};
ghost use Rattle.std.specs.List.{All};
ghost use Rattle.td_ring.specs.declared.post.Post.{Post};
ghost use Rattle.td_posts.specs.Posts.{all_mails, layout_of};
ghost use Rattle.td_stream.specs.Layouts.{AreWithin};
ghost use Rattle.td_takes.specs.Memory.{KeepRooms};
ghost use Rattle.td_host_actors.specs.Replies.{IsJobCode};
ghost use Rattle.td_host_actors.specs.Acting.{PostFits, IsInRoom, most_frames};
ghost use Rattle.td_host_actors.specs.Actors.{IsActorReady, Did, replies_of, take_rooms_of, takes_of, service_at};

use crate::guest::run_script;
use crate::publisher::publish_all;
use crate::taker::run_taker;
use crate::worker::run_worker;
use std::collections::VecDeque;
use std::sync::Wait;
use td_descr::Descr;
use td_live::gate::Gate;
use td_num::items::Items;
use td_posts::job::{HostJob, Step};
use td_posts::mail::Mail;
use td_posts::reply::Reply;
use td_posts::ring::RingJob;
use td_ring::naming::Naming;
use td_ring::passes::{PostPass, TakePass};
use td_ring::ring::Ring;
use td_ring::ticket_seat::TicketSeat;
use td_ring::tickets::Tickets;
use td_swap::codes::Codes;
use td_swap::seats::{PublishSeat, SwapSeat};
use td_takes::{Take, TakeRoom};
use td_vm::validate::Frame;
use td_words::seats::{GuestSeat, ReadSeat};
use td_words::shared::Shared;

/// What all actors look at: the buffer, the ring, the tickets, the codes of the job's versions, and the job.
#[derive(Drop)]
pub struct Desk<J: Naming> {
    /// The buffer, whose words guests store to and workers load.
    pub shared: Shared,
    /// The ring of posts: guests put them in, workers take them out.
    pub ring: Ring<J>,
    /// The count from which each worker draws the numbers of the posts that it takes.
    pub tickets: Tickets,
    /// The codes of the job's versions, with the number of the published one.
    pub codes: Codes,
    /// What is to be done: the guests' scripts, the rings, the words of the buffer.
    pub job: HostJob,
    /// The job's posts, by guest and number.
    pub mails: Vec<Mail>,
}

/// A guest: its number, from 1, and script, what it acts with, and a room for each of its posts that it hasn't made yet.
#[derive(Drop)]
pub struct Guest<G> {
    /// Its number, from 1.
    pub number: u32,
    /// The steps that it makes, in their order.
    pub script: Items<Step>,
    /// What it stores to the buffer with.
    pub seat: GuestSeat,
    /// What it puts posts into the ring with.
    pub pass: PostPass,
    /// A reply's room for each post to come: a post carries it to the worker that answers.
    pub rooms: VecDeque<Reply>,
    /// What is passed before each step.
    pub gate: G,
}

/// A worker: what it acts with, the room for its validations by each version, and the replies that it made, with room for one to
/// each post.
#[derive(Drop)]
pub struct Worker<G> {
    /// What it loads words of the buffer with.
    pub seat: ReadSeat,
    /// What it takes posts out of the ring with.
    pub pass: TakePass,
    /// What it draws tickets with.
    pub drawer: TicketSeat,
    /// What it looks at the published version with.
    pub swap: SwapSeat,
    /// The room for a validation, one frame for each version.
    pub frames: Vec<Frame>,
    /// The replies so far, in the order in which they were made.
    pub replies: Vec<Reply>,
    /// What is passed before each load and after each reply.
    pub gate: G,
}

/// What looks at a ring: which ring, from 1, its reader of descriptors, the seat that it loads from, the room for validations by
/// version 0 and for each take that it hasn't made yet, and the takes that it made, with room for all of the ring.
#[derive(Drop)]
pub struct Taker {
    /// The ring's number, from 1.
    pub number: u32,
    /// Where the ring lies in the buffer, and how often it is looked at.
    pub ring: RingJob,
    /// The reader of its descriptors.
    pub descr: Descr,
    /// What it loads words of the buffer with.
    pub seat: ReadSeat,
    /// The room for a validation by version 0.
    pub frame: Frame,
    /// A room for each take to come.
    pub rooms: VecDeque<TakeRoom>,
    /// The takes so far, in their order.
    pub takes: Vec<Take>,
}

/// What runs in a thread.
#[derive(Drop)]
pub enum Actor<G> {
    Worker(Worker<G>),
    Guest(Guest<G>),
    Ring(Taker),
    /// The one that publishes the versions.
    Publisher(PublishSeat),
}

impl<G: Gate> Actor<G> {
    /// Does all that the actor has to do: a worker answers posts, a guest runs its script, a ring's taker makes its takes, the
    /// publisher publishes all versions. It takes no memory: the lists of its replies have the memory of the posts' rooms, those of
    /// its takes that of the takes' rooms.
    pub fn run<J: Naming, R: Wait>(&mut self, rt: &R, desk: &Desk<J>)
        requires ready { IsActorReady J.names desk.now.shared desk.now.ring (service_at desk.now) self.old }
        requires mails { desk.now.mails.items ≡ all_mails 1 desk.now.job.guests }
        requires inside { All (λ m. AreWithin desk.now.shared.count (layout_of m)) desk.now.mails.items }
        requires named_fit { (p : Post) → J.names p → PostFits (most_frames desk.now.codes.codes) desk.now.job p }
        requires code { IsJobCode desk.now.codes.codes desk.now.job }
        ensures did { Did desk.now.job desk.now.mails.items self.old self.new }
        ensures memory { All (IsInRoom desk.now.codes.codes desk.now.job) (replies_of self.new) }
        ensures take_memory { KeepRooms (take_rooms_of self.old) (takes_of self.new) }
    {
        match self {
            Actor::Worker(worker) => run_worker(rt, desk, worker),
            Actor::Guest(guest) => run_script(rt, desk, guest),
            Actor::Ring(taker) => run_taker(desk, taker),
            Actor::Publisher(seat) => publish_all(&desk.codes, seat),
        }
    }
}
