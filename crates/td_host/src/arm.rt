//! Makes what acts in a job, in rooms that are taken for it. Where a value is let go, each way through its variants is a way through the
//! function. So what has many is let go by a call.

ghost use Rattle.std.specs.Prelude.{◌≡◌, ◌+◌, ◌-◌, ◌*◌, ◌<◌, ◌^◌, List, [], ◌∷◌, ◌++◌, map, length, IfOk, OnOk, Some};
ghost use Rattle.std.specs.List.{All};
ghost use Rattle.td_ring.specs.declared.post.Post.{Post};
ghost use Rattle.td_posts.specs.Posts.{mails_of, all_mails, mail_named, scattered};
ghost use Rattle.td_posts.specs.Servable.{IsServable};
ghost use Rattle.td_core.specs.declared.module.Module.{Module};
ghost use Rattle.td_host_actors.specs.Acting.{PostFits, most_frames, first_frames, RoomsFor};
ghost use Rattle.td_host.specs.Hosts.{IsOpened, AreFresh, IsCrew};
ghost use Rattle.td_host_actors.specs.Actors.{service_at};
ghost use Rattle.td_host_actors.specs.declared.actor.Actor.TheVariants as kind;
ghost use Rattle.td_host.specs.Gathered.{Armed, IsBounded, host_at, posts_at, takes_at, draws_at, swap_at, WorkersSeated, GuestsSeated, AreReadersOf, IsReaderBy, IsDescribedBy, reader_frames, HasTakeRooms};

use crate::gather::{Collected, Heads, VersionSeats};
use crate::rings::seat_takers;
use crate::rooms::{crew_rooms, rooms_for, worker_rooms};
use crate::script::copied_script;
use crate::serve::Crew;
use std::alloc::{AllocError, Global};
use std::collections::VecDeque;
use std::snapshot::Snapshot;
use td_descr::Descr;
use td_host_actors::actor::{Actor, Desk, Guest, Worker};
use td_num::items::Items;
use td_posts::job::{HostJob, Step};
use td_posts::mail::Mail;
use td_posts::name::PostName;
use td_posts::reply::Reply;
use td_ring::naming::Naming;
use td_stream::layout::Layout;
use td_swap::seats::{PublishSeat, SwapSeat};

/// The post of a message that lies in these stretches. Takes no memory.
fn scattered(name: PostName, made: u32, layout: &Layout) -> Mail
    ensures { result ≡ scattered name made layout.now }
{
    Mail {
        name,
        made,
        base: 0,
        length: layout.length(),
        layout: Some(Snapshot::of(layout)),
    }
}

/// The posts of a guest's script.
fn add_mails(guest: u32, script: &[Step], mails: &mut Vec<Mail>) -> Result<(), AllocError>
    requires { length script.now < 2 ^ 32 }
    ensures { OnOk result (mails.new.items ≡ mails.old.items ++ mails_of guest script.now) }
{
    let mut number = 0;
    let mut made = 0;
    for step in script {
        match step {
            Step::Store { .. } => made += 1,
            Step::Post { base, length } => {
                number += 1;
                mails.push(Mail {
                    name: PostName { guest, number },
                    made,
                    base: *base,
                    length: *length,
                    layout: None,
                })?;
            }
            Step::Scatter { layout } => {
                number += 1;
                mails.push(scattered(PostName { guest, number }, made, layout))?;
            }
        }
    }
    Ok(())
}

/// The posts of all guests, by guest and number.
pub(crate) fn mails_of_all(alloc: Global, guests: &[Items<Step>]) -> Result<Vec<Mail>, AllocError>
    requires few { length guests.now < 2 ^ 32 - 1 }
    requires short { All (λ s. length s < 2 ^ 32) guests.now }
    ensures { IfOk result (λ v. v.items ≡ all_mails 1 guests.now) }
{
    let mut mails = Vec::new(alloc);
    for i in 0..guests.len() {
        add_mails(i as u32 + 1, guests[i].as_slice(), &mut mails)?;
    }
    Ok(mails)
}

/// Makes a worker for each gate, with room for validations and for a reply to each post.
fn seat_workers<J: Naming, G: Drop>(
    alloc: Global,
    desk: &Desk<J>,
    heads: &mut Heads,
    swap: &mut SwapSeat,
    gates: Vec<G>,
    actors: &mut Vec<Actor<G>>,
) -> Result<(), AllocError>
    requires seat { heads.old.seat ≡ host_at desk.now.shared.table heads.old.seat.view.opened 0 }
    requires takes { heads.old.takes ≡ takes_at desk.now.ring.queue 1 }
    requires drawer { heads.old.drawer ≡ draws_at desk.now.tickets 1 }
    requires swap { swap.old ≡ swap_at desk.now.codes 0 }
    requires empty { actors.old.items ≡ [] }
    ensures seated { OnOk result (WorkersSeated desk.now.shared desk.now.ring (service_at desk.now) heads.old.seat.view.opened (length gates.items) heads.new.seat heads.new.takes heads.new.drawer actors.new.items) }
    ensures posts { OnOk result (heads.new.posts ≡ heads.old.posts) }
    ensures swap { OnOk result (swap.new ≡ swap_at desk.now.codes (length gates.items)) }
{
    for gate in gates {
        let (frames, replies) = worker_rooms(alloc, desk)?;
        let own = desk.codes.split(swap);
        let worker = Worker {
            seat: desk.shared.split_reader(&mut heads.seat),
            pass: desk.ring.split_take(&mut heads.takes),
            drawer: desk.tickets.split(&mut heads.drawer),
            swap: own,
            frames,
            replies,
            gate,
        };
        actors.push(Actor::Worker(worker))?;
    }
    Ok(())
}

/// A copy of a guest's script, and a room for each of its posts.
fn script_and_rooms<J: Naming>(
    alloc: Global,
    job: &HostJob,
    frames: usize,
    guest: u32,
    script: &[Step],
) -> Result<(Items<Step>, VecDeque<Reply>), AllocError>
    requires few { length script.now < 2 ^ 32 }
    requires first { All (λ m. mail_named m.name (all_mails 1 job.now.guests) ≡ Some m) (mails_of guest script.now) }
    requires fitting_are_named { (p : Post) → PostFits frames job.now p → J.names p }
    ensures script { IfOk result (λ r. r.0 ≡ script.now) }
    ensures rooms { IfOk result (λ r. RoomsFor J.names (mails_of guest script.now) r.1.items) }
{
    let copy = copied_script(alloc, script)?;
    match rooms_for::<J>(alloc, job, frames, guest, script) {
        Ok(rooms) => Ok((copy, rooms)),
        Err(error) => {
            drop(copy);
            Err(error)
        }
    }
}

/// Makes a guest for each script, with rooms for failures of so many frames.
fn seat_guests<J: Naming, G: Drop>(
    alloc: Global,
    desk: &Desk<J>,
    frames: usize,
    heads: &mut Heads,
    gates: Vec<G>,
    actors: &mut Vec<Actor<G>>,
) -> Result<(), AllocError>
    requires seat { heads.old.seat ≡ host_at desk.now.shared.table desk.now.job.words (length actors.old.items) }
    requires posts { heads.old.posts ≡ posts_at desk.now.ring.queue 1 }
    requires bounded { IsBounded desk.now.job }
    requires count { desk.now.shared.count ≡ length desk.now.job.words }
    requires gates { length gates.items ≡ length desk.now.job.guests }
    requires fitting_are_named { (p : Post) → PostFits frames desk.now.job p → J.names p }
    ensures seated { OnOk result (GuestsSeated J.names desk.now.shared desk.now.ring desk.now.job actors.old.items heads.new.seat heads.new.posts actors.new.items) }
    ensures takes { OnOk result (heads.new.takes ≡ heads.old.takes) }
    ensures drawer { OnOk result (heads.new.drawer ≡ heads.old.drawer) }
{
    let mut n = 0;
    for gate in gates {
        let script = desk.job.guests.as_slice()[n].as_slice();
        n += 1;
        let number = n as u32;
        let (copy, rooms) = script_and_rooms::<J>(alloc, &desk.job, frames, number, script)?;
        let guest = Guest {
            number,
            script: copy,
            seat: desk.shared.split_guest(&mut heads.seat),
            pass: desk.ring.split_post(&mut heads.posts),
            rooms,
            gate,
        };
        actors.push(Actor::Guest(guest))?;
    }
    Ok(())
}

/// Makes what acts at a desk, with a gate for each worker and then one for each guest, a reader for each ring, and last the publisher.
fn seat_all<J: Naming, G: Drop>(
    alloc: Global,
    desk: &Desk<J>,
    frames: usize,
    heads: &mut Heads,
    swap: &mut SwapSeat,
    publisher: PublishSeat,
    descrs: Vec<Descr>,
    gates: Vec<G>,
    actors: &mut Vec<Actor<G>>,
) -> Result<(), AllocError>
    requires servable { IsServable desk.now.job }
    requires opened { IsOpened desk.now heads.old }
    requires swap { swap.old ≡ swap_at desk.now.codes 0 }
    requires readers { AreReadersOf (8 * length desk.now.job.words) desk.now.job.rings descrs.items }
    requires gates { length gates.items ≡ desk.now.job.workers + length desk.now.job.guests }
    requires some { 0 < length desk.now.codes.codes }
    requires empty { actors.old.items ≡ [] }
    requires fitting_are_named { (p : Post) → PostFits frames desk.now.job p → J.names p }
    ensures armed { OnOk result ((before : List (Actor G)) × (actors.new.items ≡ before ++ kind.Publisher publisher ∷ [])
        × Armed J.names desk.now.shared desk.now.ring (service_at desk.now) desk.now.job heads.new.seat heads.new.posts heads.new.takes heads.new.drawer before) }
    ensures swap { OnOk result (swap.new ≡ swap_at desk.now.codes desk.now.job.workers) }
    ensures described { (m : Module) → All (IsReaderBy m) descrs.items → OnOk result (All (IsDescribedBy m) actors.new.items) }
    ensures take_memory { OnOk result (All (HasTakeRooms (first_frames desk.now.codes.codes) (map reader_frames descrs.items) desk.now.job) actors.new.items) }
{
    let mut gates = gates;
    let guest_gates = gates.split_off(desk.job.workers as usize)?;
    seat_workers(alloc, desk, heads, swap, gates, actors)?;
    seat_guests(alloc, desk, frames, heads, guest_gates, actors)?;
    seat_takers(alloc, desk, heads, descrs, actors)?;
    actors.push(Actor::Publisher(publisher))?;
    Ok(())
}

/// What acts at a desk, with a gate for each worker and then one for each guest, a reader for each ring, and last the publisher; and the
/// room for what they do.
pub(crate) fn make_crew<J: Naming, G: Drop>(
    alloc: Global,
    desk: &Desk<J>,
    heads: Heads,
    versions: VersionSeats,
    descrs: Vec<Descr>,
    gates: Vec<G>,
) -> Result<Crew<G>, AllocError>
    requires servable { IsServable desk.now.job }
    requires opened { IsOpened desk.now heads }
    requires fresh { AreFresh desk.now.codes versions }
    requires readers { AreReadersOf (8 * length desk.now.job.words) desk.now.job.rings descrs.items }
    requires gates { length gates.items ≡ desk.now.job.workers + length desk.now.job.guests }
    requires some { 0 < length desk.now.codes.codes }
    requires fitting_are_named { (p : Post) → PostFits (most_frames desk.now.codes.codes) desk.now.job p → J.names p }
    ensures crew { IfOk result (λ crew. IsCrew J.names desk.now crew) }
    ensures described { (m : Module) → All (IsReaderBy m) descrs.items → IfOk result (λ crew. All (IsDescribedBy m) crew.actors.items) }
    ensures take_memory { IfOk result (λ crew. All (HasTakeRooms (first_frames desk.now.codes.codes) (map reader_frames descrs.items) desk.now.job) crew.actors.items) }
{
    match crew_rooms(alloc, desk) {
        Ok(rooms) => {
            let VersionSeats {
                publisher,
                mut swap,
            } = versions;
            let mut heads = heads;
            let mut actors = Vec::new(alloc);
            match seat_all(
                alloc,
                desk,
                rooms.frames,
                &mut heads,
                &mut swap,
                publisher,
                descrs,
                gates,
                &mut actors,
            ) {
                Ok(()) => Ok(Crew {
                    into: Collected {
                        heads,
                        swap,
                        found: rooms.found,
                        takes: rooms.takes,
                    },
                    actors,
                    replies: rooms.replies,
                }),
                Err(error) => {
                    drop(heads);
                    drop(swap);
                    drop(actors);
                    drop(rooms);
                    Err(error)
                }
            }
        }
        Err(error) => {
            drop(heads);
            drop(versions);
            drop(descrs);
            drop(gates);
            Err(error)
        }
    }
}
