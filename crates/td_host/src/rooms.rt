//! Takes all room for a job: for replies, for frames of the code, and for what a crew does. Where a value is let go, each way through its
//! variants is a way through the function. So what has many is let go by a call.

ghost use Rattle.std.specs.Prelude.{◌≡◌, ◌*◌, ◌<◌, ◌≤◌, ◌^◌, [], map, length, vec_capacity, IfOk, None, Some};
ghost use Rattle.std.specs.List.{All};
ghost use Rattle.td_ring.specs.declared.post.Post.{Post};
ghost use Rattle.td_stream.specs.Copies.{empty_with};
ghost use Rattle.td_stream.specs.Layouts.{count_in};
ghost use Rattle.td_posts.specs.Posts.{mails_of, all_mails, mail_named, zeros, reply_name};
ghost use Rattle.td_posts.specs.Servable.{IsServable};
ghost use Rattle.td_posts.specs.declared.limits.TheConstants.{MOST_WORKERS, MOST_POSTS};
ghost use Rattle.td_host_actors.specs.Acting.{AreArmed, PostFits, most_frames, RoomsFor};
ghost use Rattle.td_host.specs.Hosts.{takes_in};

use crate::lists::{buffers_of, zeros_of};
use crate::rings::takes_for;
use std::alloc::{AllocError, Global};
use std::collections::VecDeque;
use td_core::outcome::Verdict;
use td_host_actors::actor::Desk;
use td_posts::job::{HostJob, Step};
use td_posts::mail::word_count;
use td_posts::name::PostName;
use td_posts::reply::Reply;
use td_ring::naming::Naming;
use td_stream::copies::Copies;
use td_stream::layout::Layout;
use td_stream::loads::Loads;
use td_swap::codes::Codes;
use td_takes::Take;
use td_vm::validate::Frame;

/// Room for the reply of a validation with so many cells and with copy buffers of these rooms, of a message of so many words without a
/// list of stretches, whose failure has so many frames at most, and memory for no more.
pub(crate) fn room_for(
    alloc: Global,
    cells: u32,
    rooms: &[u32],
    frames: usize,
    name: PostName,
    words: u32,
) -> Result<Reply, AllocError>
    ensures name { IfOk result (λ r. reply_name r ≡ name) }
    ensures at_word { IfOk result (λ r. r.layout ≡ None) }
    ensures empty { IfOk result (λ r. r.loads.list ≡ []) }
    ensures room { IfOk result (λ r. words ≤ r.loads.room) }
    ensures cells { IfOk result (λ r. r.cells.items ≡ zeros cells) }
    ensures untold { IfOk result (λ r. r.trace.items ≡ []) }
    ensures trace_room { IfOk result (λ r. vec_capacity r.trace ≡ frames) }
    ensures cell_room { IfOk result (λ r. vec_capacity r.cells ≡ cells) }
    ensures buffer_room { IfOk result (λ r. vec_capacity r.copies.buffers ≡ length rooms.now) }
    ensures copies { IfOk result (λ r. r.copies.buffers.items ≡ map empty_with rooms.now) }
{
    Ok(Reply {
        guest: name.guest,
        number: name.number,
        version: 0,
        layout: None,
        verdict: Verdict::Accept { pos: 0 },
        trace: Vec::with_capacity(alloc, frames)?,
        cells: zeros_of(alloc, cells)?,
        copies: Copies {
            buffers: buffers_of(alloc, rooms)?,
        },
        loads: Loads::with_room(alloc, words)?,
    })
}

/// Room for the reply to a post of a message that lies in these stretches, of which it has a copy.
fn scatter_room(
    alloc: Global,
    job: &HostJob,
    frames: usize,
    name: PostName,
    layout: &Layout,
) -> Result<Reply, AllocError>
    ensures name { IfOk result (λ r. reply_name r ≡ name) }
    ensures layout { IfOk result (λ r. r.layout ≡ Some layout.now) }
    ensures empty { IfOk result (λ r. r.loads.list ≡ []) }
    ensures room { IfOk result (λ r. count_in layout.now ≤ r.loads.room) }
    ensures cells { IfOk result (λ r. r.cells.items ≡ zeros job.now.cells) }
    ensures untold { IfOk result (λ r. r.trace.items ≡ []) }
    ensures trace_room { IfOk result (λ r. vec_capacity r.trace ≡ frames) }
    ensures cell_room { IfOk result (λ r. vec_capacity r.cells ≡ job.now.cells) }
    ensures buffer_room { IfOk result (λ r. vec_capacity r.copies.buffers ≡ length job.now.rooms) }
    ensures copies { IfOk result (λ r. r.copies.buffers.items ≡ map empty_with job.now.rooms) }
{
    let rooms = job.rooms.as_slice();
    let mut room = room_for(alloc, job.cells, rooms, frames, name, layout.count())?;
    room.layout = Some(layout.copied(alloc)?);
    Ok(room)
}

/// A room for each post of a guest's script.
pub(crate) fn rooms_for<J: Naming>(
    alloc: Global,
    job: &HostJob,
    frames: usize,
    guest: u32,
    script: &[Step],
) -> Result<VecDeque<Reply>, AllocError>
    requires few { length script.now < 2 ^ 32 }
    requires first { All (λ m. mail_named m.name (all_mails 1 job.now.guests) ≡ Some m) (mails_of guest script.now) }
    requires fitting_are_named { (p : Post) → PostFits frames job.now p → J.names p }
    ensures { IfOk result (λ rooms. RoomsFor J.names (mails_of guest script.now) rooms.items) }
{
    let copies = job.rooms.as_slice();
    let mut rooms = VecDeque::new(alloc);
    let mut number = 0;
    for step in script {
        match step {
            Step::Store { .. } => {}
            Step::Post { base: _, length } => {
                number += 1;
                let name = PostName { guest, number };
                let words = word_count(*length);
                rooms.push_back(room_for(alloc, job.cells, copies, frames, name, words)?)?;
            }
            Step::Scatter { layout } => {
                number += 1;
                let name = PostName { guest, number };
                rooms.push_back(scatter_room(alloc, job, frames, name, layout)?)?;
            }
        }
    }
    Ok(rooms)
}

/// A frame for each version, armed for its code.
fn frames_for(alloc: Global, codes: &Codes) -> Result<Vec<Frame>, AllocError>
    ensures { IfOk result (λ frames. AreArmed codes.now.codes frames.items) }
{
    let mut frames = Vec::new(alloc);
    let versions = codes.versions();
    for version in versions {
        frames.push(Frame::arm(alloc, &version.code)?)?;
    }
    Ok(frames)
}

/// A frame for each version, and room for a reply to each post.
pub(crate) fn worker_rooms<J: Naming>(
    alloc: Global,
    desk: &Desk<J>,
) -> Result<(Vec<Frame>, Vec<Reply>), AllocError>
    ensures armed { IfOk result (λ r. AreArmed desk.now.codes.codes r.0.items) }
    ensures none { IfOk result (λ r. r.1.items ≡ []) }
    ensures room { IfOk result (λ r. length desk.now.mails.items ≤ vec_capacity r.1) }
{
    let frames = frames_for(alloc, &desk.codes)?;
    match Vec::with_capacity(alloc, desk.mails.len()) {
        Ok(replies) => Ok((frames, replies)),
        Err(error) => {
            drop(frames);
            Err(error)
        }
    }
}

/// How many frames a failure of these codes has at most. `AllocError`: there was no memory to find it.
fn frames_of(alloc: Global, codes: &Codes) -> Result<usize, AllocError>
    ensures { IfOk result (λ frames. frames ≡ most_frames codes.now.codes) }
{
    let mut most = 0;
    let versions = codes.versions();
    for version in versions {
        let frame = Frame::arm(alloc, &version.code)?;
        most = frame.trace_room().max(most);
    }
    Ok(most)
}

/// Room for as many replies as all workers may make, and for one to each post.
fn reply_rooms(
    alloc: Global,
    workers: usize,
    posts: usize,
) -> Result<(Vec<Reply>, Vec<Reply>), AllocError>
    requires workers { workers ≤ MOST_WORKERS }
    requires posts { posts ≤ MOST_POSTS }
    ensures found { IfOk result (λ r. (r.0.items ≡ []) × (workers * posts ≤ vec_capacity r.0)) }
    ensures replies { IfOk result (λ r. (r.1.items ≡ []) × (posts ≤ vec_capacity r.1)) }
{
    let most = workers * posts;
    let found = Vec::with_capacity(alloc, most)?;
    let replies = Vec::with_capacity(alloc, posts)?;
    Ok((found, replies))
}

/// The room for what a crew does.
#[derive(Drop)]
pub(crate) struct Rooms {
    /// How many frames a failure has at most.
    pub(crate) frames: usize,
    pub(crate) found: Vec<Reply>,
    pub(crate) replies: Vec<Reply>,
    pub(crate) takes: Vec<Take>,
}

/// Room for as many replies as all workers may make, for one to each post, and for all takes. `AllocError`: there was no memory for it.
pub(crate) fn crew_rooms<J: Naming>(alloc: Global, desk: &Desk<J>) -> Result<Rooms, AllocError>
    requires servable { IsServable desk.now.job }
    requires posts { length desk.now.mails.items ≤ MOST_POSTS }
    ensures frames { IfOk result (λ r. r.frames ≡ most_frames desk.now.codes.codes) }
    ensures none_found { IfOk result (λ r. r.found.items ≡ []) }
    ensures found_room { IfOk result (λ r. desk.now.job.workers * length desk.now.mails.items ≤ vec_capacity r.found) }
    ensures no_reply { IfOk result (λ r. r.replies.items ≡ []) }
    ensures reply_room { IfOk result (λ r. length desk.now.mails.items ≤ vec_capacity r.replies) }
    ensures no_take { IfOk result (λ r. r.takes.items ≡ []) }
    ensures take_room { IfOk result (λ r. takes_in desk.now.job.rings ≤ vec_capacity r.takes) }
{
    let frames = frames_of(alloc, &desk.codes)?;
    let workers = desk.job.workers as usize;
    let (found, replies) = reply_rooms(alloc, workers, desk.mails.len())?;
    match takes_for(alloc, desk.job.rings.as_slice()) {
        Ok(takes) => Ok(Rooms {
            frames,
            found,
            replies,
            takes,
        }),
        Err(error) => {
            drop(found);
            drop(replies);
            Err(error)
        }
    }
}
