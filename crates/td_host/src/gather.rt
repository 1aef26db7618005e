//! The host takes back what all actors had. Where a value is let go, each way through its variants is a way through the function. So
//! what has many is let go by a call.

ghost use Rattle.std.specs.Prelude.{◌≡◌, ◌+◌, ◌≤◌, ◌++◌, length, vec_capacity};
ghost use Rattle.std.specs.List.{All};
ghost use Rattle.td_words.specs.Seats.{with_view};
ghost use Rattle.td_ring.specs.Heads.{HasHead};
ghost use Rattle.td_ring.specs.Ring.{pass_with};
ghost use Rattle.td_ring.specs.Tickets.{drawer_with};
ghost use Rattle.td_swap.specs.Views.{AreVersions};
ghost use Rattle.td_swap.specs.Seats.{swap_state};
ghost use Rattle.td_host_actors.specs.declared.actor.Actor.TheVariants as kind;
ghost use Rattle.td_host.specs.Gathered.{IsAt, seats_all, puts_all, takes_all, draws_all, swaps_all, all_replies, takes_of_all};
ghost use Rattle.td_host.specs.Collecting.{MayCollect, HasRoomFor, CollectsOne};

use td_host_actors::actor::{Actor, Desk, Guest, Taker, Worker};
use td_posts::reply::Reply;
use td_ring::naming::Naming;
use td_ring::passes::{PostPass, TakePass};
use td_ring::ticket_seat::TicketSeat;
use td_swap::seats::{PublishSeat, SwapSeat};
use td_takes::Take;
use td_words::seats::{HostSeat, ReadSeat};

/// What the host acts with: its seat at the buffer, and the first passes and the first ticket seat.
#[derive(Drop)]
pub struct Heads {
    pub seat: HostSeat,
    pub posts: PostPass,
    pub takes: TakePass,
    pub drawer: TicketSeat,
}

/// What the host acts with at the version word: the one publisher's seat, and the seat that makes those of the workers.
#[derive(Drop)]
pub struct VersionSeats {
    pub publisher: PublishSeat,
    pub swap: SwapSeat,
}

/// What the host collects: what it acts with, the seat that gathers those at the version word, and the replies and the takes so far.
#[derive(Drop)]
pub struct Collected {
    pub heads: Heads,
    /// The seat that made those with which the workers load which version is published.
    pub swap: SwapSeat,
    /// Room for all replies that the workers may make.
    pub found: Vec<Reply>,
    /// Room for all takes.
    pub takes: Vec<Take>,
}

/// Takes back what a worker had.
fn gather_worker<J: Naming, G: Drop>(desk: &Desk<J>, into: &mut Collected, worker: Worker<G>)
    requires ready { MayCollect desk.now into.old }
    requires at { IsAt desk.now.shared desk.now.ring desk.now.tickets desk.now.codes (kind.Worker worker) }
    requires room { HasRoomFor into.old (kind.Worker worker) }
    ensures { CollectsOne into.old into.new (kind.Worker worker) }
{
    let Worker {
        seat,
        pass,
        drawer,
        replies,
        swap: loaded,
        frames: _,
        gate: _,
    } = worker;
    let mut replies = replies;
    let Ok(()) = into.found.append(&mut replies) else {
        unreachable!()
    };
    desk.shared.gather_reader(&mut into.heads.seat, seat);
    desk.ring.gather_take(&mut into.heads.takes, pass);
    desk.tickets.gather(&mut into.heads.drawer, drawer);
    desk.codes.gather(&mut into.swap, loaded);
}

/// Takes back what a guest had.
fn gather_guest<J: Naming, G: Drop>(desk: &Desk<J>, into: &mut Collected, guest: Guest<G>)
    requires ready { MayCollect desk.now into.old }
    requires at { IsAt desk.now.shared desk.now.ring desk.now.tickets desk.now.codes (kind.Guest guest) }
    ensures { CollectsOne into.old into.new (kind.Guest guest) }
{
    let Guest {
        number: _,
        script: _,
        seat,
        pass,
        rooms: _,
        gate: _,
    } = guest;
    desk.shared.gather_guest(&mut into.heads.seat, seat);
    desk.ring.gather_post(&mut into.heads.posts, pass);
}

/// The seat and the takes of a taker, alone.
fn parts_of(taker: Taker) -> (ReadSeat, Vec<Take>)
    ensures { result ≡ (taker.seat, taker.takes) }
{
    let Taker {
        number: _,
        ring: _,
        descr,
        seat,
        frame,
        rooms,
        takes,
    } = taker;
    drop(descr);
    drop(frame);
    drop(rooms);
    (seat, takes)
}

/// Takes back what a ring's taker had; G is of no account.
fn gather_taker<J: Naming, G: Drop>(desk: &Desk<J>, into: &mut Collected, taker: Taker)
    requires ready { MayCollect desk.now into.old }
    requires at { taker.seat.table ≡ desk.now.shared.table }
    requires room { HasRoomFor {G = G} into.old (kind.Ring taker) }
    ensures { CollectsOne {G = G} into.old into.new (kind.Ring taker) }
{
    let (reader, mut made) = parts_of(taker);
    let Ok(()) = into.takes.append(&mut made) else {
        unreachable!()
    };
    desk.shared.gather_reader(&mut into.heads.seat, reader);
}

/// Takes back what one actor had, who isn't the publisher.
fn gather_one<J: Naming, G: Drop>(desk: &Desk<J>, into: &mut Collected, actor: Actor<G>)
    requires ready { MayCollect desk.now into.old }
    requires at { IsAt desk.now.shared desk.now.ring desk.now.tickets desk.now.codes actor }
    requires room { HasRoomFor into.old actor }
    ensures { CollectsOne into.old into.new actor }
{
    match actor {
        Actor::Worker(worker) => gather_worker(desk, into, worker),
        Actor::Guest(guest) => gather_guest(desk, into, guest),
        Actor::Ring(taker) => gather_taker::<J, G>(desk, into, taker),
        Actor::Publisher(_) => unreachable!(),
    }
}

/// Takes back what all actors but the publisher had, in order. The lists have room for their replies and takes, so this takes no memory.
pub fn gather_all<J: Naming, G: Drop>(desk: &Desk<J>, into: &mut Collected, actors: Vec<Actor<G>>)
    requires ready { MayCollect desk.now into.old }
    requires at { All (IsAt desk.now.shared desk.now.ring desk.now.tickets desk.now.codes) actors.items }
    requires room { length into.old.found.items + length (all_replies actors.items) ≤ vec_capacity into.old.found }
    requires take_room { length into.old.takes.items + length (takes_of_all actors.items) ≤ vec_capacity into.old.takes }
    ensures seat { into.new.heads.seat ≡ with_view into.old.heads.seat (seats_all into.old.heads.seat.view actors.items) }
    ensures posts { into.new.heads.posts ≡ pass_with into.old.heads.posts (puts_all into.old.heads.posts.view actors.items) }
    ensures takes { into.new.heads.takes ≡ pass_with into.old.heads.takes (takes_all into.old.heads.takes.view actors.items) }
    ensures drawer { into.new.heads.drawer ≡ drawer_with into.old.heads.drawer (draws_all into.old.heads.drawer.view actors.items) }
    ensures first { HasHead into.new.heads.posts.view.put_head × HasHead into.new.heads.takes.view.take_head }
    ensures swap { into.new.swap ≡ swap_state into.old.swap.table (swaps_all into.old.swap.view actors.items) }
    ensures versions { AreVersions into.new.swap.view }
    ensures found { into.new.found.items ≡ into.old.found.items ++ all_replies actors.items }
    ensures made { into.new.takes.items ≡ into.old.takes.items ++ takes_of_all actors.items }
{
    for actor in actors {
        gather_one(desk, into, actor);
    }
}
