//! Makes the takers of a job's rings, and takes all room for their takes. Where a value is let go, each way through its variants is a
//! way through the function. So what has many is let go by a call.

ghost use Rattle.std.specs.Prelude.{◌≡◌, ◌*◌, ◌<◌, ◌≤◌, [], map, length, vec_capacity, IfOk, OnOk};
ghost use Rattle.std.specs.List.{All};
ghost use Rattle.td_posts.specs.Servable.{IsRingWithin};
ghost use Rattle.td_posts.specs.declared.limits.TheConstants.{MOST_RINGS, MOST_TAKES};
ghost use Rattle.td_takes.specs.Takes.{IsRoom, AreRooms, frames_of};
ghost use Rattle.td_host_actors.specs.Acting.{IsTakeRoom, first_frames};
ghost use Rattle.td_host_actors.specs.Actors.{service_at, IsTakerReady};
ghost use Rattle.td_host.specs.Hosts.{takes_in};
ghost use Rattle.td_host.specs.Gathered.{host_at, TakersSeated, IsReaderOf, AreReadersOf, reader_frames, HasTakeRooms};

use crate::gather::Heads;
use crate::rooms::room_for;
use std::alloc::{AllocError, Global};
use std::collections::VecDeque;
use td_descr::Descr;
use td_host_actors::actor::{Actor, Desk, Taker};
use td_posts::job::HostJob;
use td_posts::name::PostName;
use td_posts::ring::RingJob;
use td_ring::naming::Naming;
use td_takes::{Take, TakeRoom};
use td_vm::validate::Frame;
use td_words::seats::ReadSeat;

/// The cells of a descriptor: its message's place and size, and the guest's number for it.
const DESC_CELLS: u32 = 3;
/// The words of a descriptor.
const DESC_WORDS: u32 = 2;

/// Room for the two replies of one take from a ring, whose failures have so many frames at most.
fn take_room(
    alloc: Global,
    job: &HostJob,
    frames: usize,
    desc_frames: usize,
    ring: RingJob,
) -> Result<TakeRoom, AllocError>
    ensures room { IfOk result (λ r. IsRoom job.now frames desc_frames ring.most r) }
    ensures memory { IfOk result (λ r. IsTakeRoom frames desc_frames job.now r) }
{
    let nobody = PostName {
        guest: 0,
        number: 0,
    };
    let descr = room_for(alloc, DESC_CELLS, &[], desc_frames, nobody, DESC_WORDS)?;
    let rooms = job.rooms.as_slice();
    let message = room_for(alloc, job.cells, rooms, frames, nobody, ring.most / 8 + 2)?;
    Ok(TakeRoom { descr, message })
}

/// Room for each take from a ring.
fn take_rooms(
    alloc: Global,
    job: &HostJob,
    frames: usize,
    desc_frames: usize,
    ring: RingJob,
) -> Result<VecDeque<TakeRoom>, AllocError>
    ensures rooms { IfOk result (λ rooms. AreRooms job.now frames desc_frames ring.most rooms.items) }
    ensures as_many { IfOk result (λ rooms. length rooms.items ≡ ring.takes) }
    ensures memory { IfOk result (λ rooms. All (IsTakeRoom frames desc_frames job.now) rooms.items) }
{
    let mut rooms = VecDeque::new(alloc);
    for _take in 0..ring.takes {
        rooms.push_back(take_room(alloc, job, frames, desc_frames, ring)?)?;
    }
    Ok(rooms)
}

/// Room for each take from a ring, and for the list of the takes.
fn rooms_and_takes(
    alloc: Global,
    job: &HostJob,
    frames: usize,
    desc_frames: usize,
    ring: RingJob,
) -> Result<(VecDeque<TakeRoom>, Vec<Take>), AllocError>
    ensures rooms { IfOk result (λ r. AreRooms job.now frames desc_frames ring.most r.0.items) }
    ensures as_many { IfOk result (λ r. length r.0.items ≡ ring.takes) }
    ensures memory { IfOk result (λ r. All (IsTakeRoom frames desc_frames job.now) r.0.items) }
    ensures empty { IfOk result (λ r. r.1.items ≡ []) }
    ensures space { IfOk result (λ r. ring.takes ≤ vec_capacity r.1) }
{
    let rooms = take_rooms(alloc, job, frames, desc_frames, ring)?;
    match Vec::with_capacity(alloc, ring.takes as usize) {
        Ok(takes) => Ok((rooms, takes)),
        Err(error) => {
            drop(rooms);
            Err(error)
        }
    }
}

/// The taker of a ring, from this seat, with room for all takes.
fn taker_for<J: Naming>(
    alloc: Global,
    desk: &Desk<J>,
    number: u32,
    ring: RingJob,
    descr: Descr,
    seat: ReadSeat,
) -> Result<Taker, AllocError>
    requires own { seat.table ≡ desk.now.shared.table }
    requires count { desk.now.shared.count ≡ length desk.now.job.words }
    requires within { IsRingWithin (length desk.now.job.words) ring }
    requires reader { IsReaderOf (8 * length desk.now.job.words) ring descr }
    requires some { 0 < length desk.now.codes.codes }
    ensures number { IfOk result (λ t. t.number ≡ number) }
    ensures ring { IfOk result (λ t. t.ring ≡ ring) }
    ensures descr { IfOk result (λ t. t.descr ≡ descr) }
    ensures seat { IfOk result (λ t. t.seat ≡ seat) }
    ensures ready { IfOk result (λ t. IsTakerReady desk.now.shared desk.now.codes.codes desk.now.job t) }
    ensures memory { IfOk result (λ t. All (IsTakeRoom (first_frames desk.now.codes.codes) (frames_of descr.code) desk.now.job) t.rooms.items) }
{
    let versions = desk.codes.versions();
    match Frame::arm(alloc, &versions[0].code) {
        Ok(frame) => {
            let desc_frames = descr.frame().trace_room();
            let frames = frame.trace_room();
            match rooms_and_takes(alloc, &desk.job, frames, desc_frames, ring) {
                Ok((rooms, takes)) => Ok(Taker {
                    number,
                    ring,
                    descr,
                    seat,
                    frame,
                    rooms,
                    takes,
                }),
                Err(error) => {
                    drop(frame);
                    drop(descr);
                    drop(seat);
                    Err(error)
                }
            }
        }
        Err(error) => {
            drop(descr);
            drop(seat);
            Err(error)
        }
    }
}

/// Makes a taker for each ring, with its reader.
pub(crate) fn seat_takers<J: Naming, G: Drop>(
    alloc: Global,
    desk: &Desk<J>,
    heads: &mut Heads,
    descrs: Vec<Descr>,
    actors: &mut Vec<Actor<G>>,
) -> Result<(), AllocError>
    requires seat { heads.old.seat ≡ host_at desk.now.shared.table desk.now.job.words (length actors.old.items) }
    requires count { desk.now.shared.count ≡ length desk.now.job.words }
    requires within { All (IsRingWithin (length desk.now.job.words)) desk.now.job.rings }
    requires few { length desk.now.job.rings ≤ MOST_RINGS }
    requires readers { AreReadersOf (8 * length desk.now.job.words) desk.now.job.rings descrs.items }
    requires some { 0 < length desk.now.codes.codes }
    ensures seated { OnOk result (TakersSeated desk.now.shared (service_at desk.now) desk.now.job descrs.items actors.old.items heads.new.seat actors.new.items) }
    ensures posts { OnOk result (heads.new.posts ≡ heads.old.posts) }
    ensures takes { OnOk result (heads.new.takes ≡ heads.old.takes) }
    ensures drawer { OnOk result (heads.new.drawer ≡ heads.old.drawer) }
    ensures memory { All (HasTakeRooms (first_frames desk.now.codes.codes) (map reader_frames descrs.items) desk.now.job) actors.old.items
        → OnOk result (All (HasTakeRooms (first_frames desk.now.codes.codes) (map reader_frames descrs.items) desk.now.job) actors.new.items) }
{
    let mut n = 0;
    for descr in descrs {
        let ring = desk.job.rings.as_slice()[n];
        n += 1;
        let seat = desk.shared.split_reader(&mut heads.seat);
        let taker = taker_for(alloc, desk, n as u32, ring, descr, seat)?;
        actors.push(Actor::Ring(taker))?;
    }
    Ok(())
}

/// Room for all takes from these rings.
pub(crate) fn takes_for(alloc: Global, rings: &[RingJob]) -> Result<Vec<Take>, AllocError>
    requires few { length rings.now ≤ MOST_RINGS }
    requires short { All (λ r. r.takes ≤ MOST_TAKES) rings.now }
    ensures none { IfOk result (λ takes. takes.items ≡ []) }
    ensures room { IfOk result (λ takes. takes_in rings.now ≤ vec_capacity takes) }
{
    let mut count = 0;
    for ring in rings {
        count += ring.takes as usize;
    }
    Vec::with_capacity(alloc, count)
}
