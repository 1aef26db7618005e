//! A job, from its arming to its replies and takes.

ghost use Rattle.std.specs.Prelude.{◌≡◌, ◌+◌, ◌*◌, map, length, IfOk};
ghost use Rattle.std.specs.List.{All};
ghost use Rattle.td_core.specs.declared.module.Module.{Module};
ghost use Rattle.td_host.specs.Gathered.{AreReadersOf, IsReaderBy, reader_frames};
ghost use Rattle.td_ring.specs.declared.post.Post.{Post};
ghost use Rattle.td_host_actors.specs.Acting.{PostFits, IsInRoom, IsTakeInRoom, most_frames, first_frames};
ghost use Rattle.td_posts.specs.Servable.{IsServable};
ghost use Rattle.td_host_actors.specs.Replies.{IsJobCode};
ghost use Rattle.td_host.specs.Hosts.{IsServedJob};

use crate::host::{Host, ServedJob};
use std::alloc::{AllocError, Global};
use std::marker::Brand;
use std::sync::Wait;
use std::thread::Threads;
use td_descr::Descr;
use td_live::gate::Gate;
use td_posts::job::HostJob;
use td_ring::naming::Naming;
use td_verify::verify::Verified;

/// As `serve_job`, with a name for what the job's posts promise.
fn serve_under<J: Naming + Send + Sync, R: Threads + Wait + Sync, G: Gate + Send + Drop>(
    rt: &R,
    alloc: Global,
    codes: Vec<Verified>,
    job: HostJob,
    descrs: Vec<Descr>,
    gates: Vec<G>,
) -> Result<ServedJob, AllocError>
    requires servable { IsServable job }
    requires code { IsJobCode codes.items job }
    requires readers { AreReadersOf (8 * length job.words) job.rings descrs.items }
    requires gates { length gates.items ≡ job.workers + length job.guests }
    requires fitting_are_named { (p : Post) → PostFits (most_frames codes.items) job p → J.names p }
    requires named_fit { (p : Post) → J.names p → PostFits (most_frames codes.items) job p }
    ensures job { IfOk result (λ r. r.job ≡ job) }
    ensures served { (m : Module) → All (IsReaderBy m) descrs.items → IfOk result (λ r. IsServedJob m job r.replies r.takes) }
    ensures memory { IfOk result (λ r. All (IsInRoom codes.items job) r.replies) }
    ensures take_memory { IfOk result (λ r. All (IsTakeInRoom (first_frames codes.items) (map reader_frames descrs.items) job) r.takes) }
{
    let mut host = Host::<J, G>::arm(alloc, codes, job, descrs, gates)?;
    host.serve(rt);
    Ok(host.into_served(alloc))
}

/// Serves the posts of a job that is done by these codes, one for each of its versions, in their order, and makes the takes of
/// its rings by these readers, one for each ring, in their order, with a gate for each worker and then one for each guest. It
/// gives the job back with the replies, by guest and number, and the takes, by ring and number, each in the memory of its room.
/// `AllocError`: there was no memory for the room; then no thread was started and no word loaded.
pub fn serve_job<R: Threads + Wait + Sync, G: Gate + Send + Drop>(
    rt: &R,
    alloc: Global,
    codes: Vec<Verified>,
    job: HostJob,
    descrs: Vec<Descr>,
    gates: Vec<G>,
) -> Result<ServedJob, AllocError>
    requires servable { IsServable job }
    requires code { IsJobCode codes.items job }
    requires readers { AreReadersOf (8 * length job.words) job.rings descrs.items }
    requires gates { length gates.items ≡ job.workers + length job.guests }
    ensures job { IfOk result (λ r. r.job ≡ job) }
    ensures served { (m : Module) → All (IsReaderBy m) descrs.items → IfOk result (λ r. IsServedJob m job r.replies r.takes) }
    ensures memory { IfOk result (λ r. All (IsInRoom codes.items job) r.replies) }
    ensures take_memory { IfOk result (λ r. All (IsTakeInRoom (first_frames codes.items) (map reader_frames descrs.items) job) r.takes) }
{
    serve_under::<Brand, R, G>(rt, alloc, codes, job, descrs, gates)
}
