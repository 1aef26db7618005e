//! A host: armed for a job, it serves the job's posts, and makes the takes of its rings, once. Where a value is let go, each way
//! through its variants is a way through the function. So what has many is let go by a call.

ghost use Rattle.std.specs.Prelude.{◌≡◌, ℕ, ◌+◌, ◌*◌, List, [], map, length, IfOk};
ghost use Rattle.std.specs.List.{All};
ghost use Rattle.td_core.specs.declared.module.Module.{Module};
ghost use Rattle.td_ring.specs.declared.post.Post.{Post};
ghost use Rattle.td_host_actors.specs.Acting.{PostFits, IsInRoom, IsTakeInRoom, most_frames, first_frames};
ghost use Rattle.td_posts.specs.Servable.{IsServable};
ghost use Rattle.td_host_actors.specs.Replies.{IsJobCode};
ghost use Rattle.td_host.specs.Gathered.{AreReadersOf, IsReaderBy, reader_frames};
ghost use Rattle.td_host.specs.Hosts.{IsHostArmed, IsOpened, AreFresh, HasDescribed, HasTakeMemory, IsServed, replies_in, takes_made, published_in};

use crate::arm::make_crew;
use crate::desk::open_desk;
use crate::gather::{Heads, VersionSeats};
use crate::serve::{Crew, Finished, serve_all};
use std::alloc::{AllocError, Global};
use std::sync::Wait;
use std::thread::Threads;
use td_descr::Descr;
use td_host_actors::actor::Desk;
use td_live::gate::Gate;
use td_num::items::Items;
use td_posts::job::HostJob;
use td_posts::reply::Reply;
use td_ring::naming::Naming;
use td_takes::Take;
use td_verify::verify::Verified;

/// A host: its buffer, ring and tickets, a job and the codes of its versions, and what serves it. J names what each post of the
/// job promises.
#[derive(Drop)]
pub struct Host<J: Naming, G> {
    pub(crate) desk: Desk<J>,
    /// What acts in the host, until it serves.
    pub(crate) crew: Option<Crew<G>>,
    /// What is left, from then on.
    pub(crate) finished: Option<Finished>,
}

impl<J: Naming + Send + Sync, G: Gate + Send + Drop> Host<J, G> {
    /// Takes all room for a job that is done by these codes, one for each of its versions, in their order, with a reader for each of its
    /// rings, in their order, and with a gate for each worker and then one for each guest; J's fact is what the job's posts promise. A
    /// reader took nothing yet, and its room is the buffer's bytes. `AllocError`: there was no memory for it.
    pub fn arm(
        alloc: Global,
        codes: Vec<Verified>,
        job: HostJob,
        descrs: Vec<Descr>,
        gates: Vec<G>,
    ) -> Result<Host<J, G>, AllocError>
        requires servable { IsServable job }
        requires code { IsJobCode codes.items job }
        requires readers { AreReadersOf (8 * length job.words) job.rings descrs.items }
        requires gates { length gates.items ≡ job.workers + length job.guests }
        requires fitting_are_named { (p : Post) → PostFits (most_frames codes.items) job p → J.names p }
        requires named_fit { (p : Post) → J.names p → PostFits (most_frames codes.items) job p }
        ensures armed { IfOk result (λ h. IsHostArmed J.names h) }
        ensures codes { IfOk result (λ h. h.desk.codes.codes ≡ codes.items) }
        ensures job { IfOk result (λ h. h.desk.job ≡ job) }
        ensures described { (m : Module) → All (IsReaderBy m) descrs.items → IfOk result (HasDescribed m) }
        ensures take_memory { IfOk result (HasTakeMemory (map reader_frames descrs.items)) }
    {
        let (desk, heads, versions) = open_desk::<J>(alloc, codes, job)?;
        Host::at_desk(alloc, desk, heads, versions, descrs, gates)
    }

    /// A host at this desk, with what acts there. `AllocError`: there was no memory for it.
    fn at_desk(
        alloc: Global,
        desk: Desk<J>,
        heads: Heads,
        versions: VersionSeats,
        descrs: Vec<Descr>,
        gates: Vec<G>,
    ) -> Result<Host<J, G>, AllocError>
        requires servable { IsServable desk.job }
        requires opened { IsOpened desk heads }
        requires fresh { AreFresh desk.codes versions }
        requires code { IsJobCode desk.codes.codes desk.job }
        requires readers { AreReadersOf (8 * length desk.job.words) desk.job.rings descrs.items }
        requires gates { length gates.items ≡ desk.job.workers + length desk.job.guests }
        requires fitting_are_named { (p : Post) → PostFits (most_frames desk.codes.codes) desk.job p → J.names p }
        requires named_fit { (p : Post) → J.names p → PostFits (most_frames desk.codes.codes) desk.job p }
        ensures armed { IfOk result (λ h. IsHostArmed J.names h) }
        ensures desk { IfOk result (λ h. h.desk ≡ desk) }
        ensures described { (m : Module) → All (IsReaderBy m) descrs.items → IfOk result (HasDescribed m) }
        ensures take_memory { IfOk result (HasTakeMemory (map reader_frames descrs.items)) }
    {
        match make_crew(alloc, &desk, heads, versions, descrs, gates) {
            Ok(crew) => Ok(Host {
                desk,
                crew: Some(crew),
                finished: None,
            }),
            Err(error) => {
                drop(desk);
                Err(error)
            }
        }
    }

    /// Serves the job's posts, and meanwhile makes the takes of its rings, and publishes its versions one after the other: each worker,
    /// each guest's script, each ring's taker and the publisher run in a thread of their own where one can be made, and else in turn. To
    /// be called once. It takes no memory: `arm` took all room, and the lists of a reply have that of its post's or take's room still.
    pub fn serve<R: Threads + Wait + Sync>(&mut self, rt: &R)
        requires { IsHostArmed J.names self.old }
        ensures desk { self.new.desk ≡ self.old.desk }
        ensures served { (m : Module) → HasDescribed m self.old → IsServed m self.new }
        ensures memory { All (IsInRoom self.new.desk.codes.codes self.new.desk.job) (replies_in self.new.finished) }
        ensures take_memory { (ns : List ℕ) → HasTakeMemory ns self.old → All (IsTakeInRoom (first_frames self.new.desk.codes.codes) ns self.new.desk.job) (takes_made self.new.finished) }
    {
        let Some(crew) = self.crew.take() else {
            unreachable!()
        };
        let finished = serve_all(rt, &self.desk, crew);
        self.finished = Some(finished);
    }

    /// The replies, by guest and number; none before the host served.
    pub fn replies(&self) -> &[Reply]
        ensures { result.now ≡ replies_in self.now.finished }
    {
        match &self.finished {
            Some(finished) => finished.replies.as_slice(),
            None => &[],
        }
    }

    /// The takes, by ring and number; none before the host served.
    pub fn takes(&self) -> &[Take]
        ensures { result.now ≡ takes_made self.now.finished }
    {
        match &self.finished {
            Some(finished) => finished.takes.as_slice(),
            None => &[],
        }
    }

    /// The number of the version that was published last: 0 before the host served, and then that of the job's last version.
    pub fn published(&self) -> u32
        ensures { result ≡ published_in self.now.finished }
    {
        match &self.finished {
            Some(finished) => finished.publisher.number(),
            None => 0,
        }
    }

    /// The job, the replies and the takes alone.
    pub fn into_served(self, alloc: Global) -> ServedJob
        ensures job { result.job ≡ self.desk.job }
        ensures replies { result.replies ≡ replies_in self.finished }
        ensures takes { result.takes ≡ takes_made self.finished }
    {
        let Host {
            desk,
            crew: _,
            finished,
        } = self;
        let (replies, takes) = answers_of(alloc, finished);
        ServedJob {
            job: job_of(desk),
            replies,
            takes,
        }
    }
}

/// A job that was served, its replies, by guest and number, and the takes of its rings, by ring and number.
#[derive(Drop)]
pub struct ServedJob {
    pub job: HostJob,
    pub replies: Items<Reply>,
    pub takes: Items<Take>,
}

/// The job of a desk, alone.
fn job_of<J: Naming>(desk: Desk<J>) -> HostJob
    ensures { result ≡ desk.job }
{
    let Desk {
        shared: _,
        ring: _,
        tickets: _,
        codes: _,
        job,
        mails: _,
    } = desk;
    job
}

/// The replies and the takes that are left, alone.
fn answers_of(alloc: Global, finished: Option<Finished>) -> (Items<Reply>, Items<Take>)
    ensures replies { result.0 ≡ replies_in finished }
    ensures takes { result.1 ≡ takes_made finished }
{
    match finished {
        Some(finished) => finished.into_answers(),
        None => (Items::new(alloc), Items::new(alloc)),
    }
}
