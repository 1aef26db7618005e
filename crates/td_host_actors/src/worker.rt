//! Workers, which take posts and answer them.

ghost use Rattle.std.specs.Prelude.{◌≡◌, ℕ, ◌≤◌, [], length, None, vec_capacity};
ghost use Rattle.std.specs.Option.{unwrap_or};
ghost use Rattle.std.specs.List.{All};
ghost use Rattle.td_ring.specs.declared.post.Post.{Post};
ghost use Rattle.td_ring.specs.Ring.{pass_with, did_take};
ghost use Rattle.td_posts.specs.Posts.{all_mails, layout_of, reply_name};
ghost use Rattle.td_stream.specs.Layouts.{AreWithin};
ghost use Rattle.td_live.specs.Live.{HasLoaded};
ghost use Rattle.td_vm.specs.Frames.{IsArmed};
ghost use Rattle.td_swap.specs.Seats.{IsOwn, then_loaded};
ghost use Rattle.td_takes.specs.Codes.{IsCodeAt};
ghost use Rattle.td_takes.specs.Memory.{KeepsMemory};
ghost use Rattle.td_host_actors.specs.Replies.{IsJobCode, layout_in};
ghost use Rattle.td_host_actors.specs.Acting.{AreArmed, PostFits, IsInRoom, most_frames, Answered, RanWorker};

use crate::actor::{Desk, Worker};
use std::sync::Wait;
use std::thread;
use td_core::module::Entry;
use td_live::gate::Gate;
use td_live::message::LiveMessage;
use td_live::slot::validate_slot;
use td_posts::copies::keep_copies;
use td_posts::laws::each_mail_is_named;
use td_posts::mail::{Mail, mail_of};
use td_posts::reply::Reply;
use td_ring::naming::Naming;
use td_ring::passes::TakePass;
use td_ring::post::Post;
use td_ring::ring::Ring;
use td_stream::laws::message_is_short;
use td_stream::layout::Layout;
use td_swap::seats::SwapSeat;
use td_swap::version::Version;
use td_takes::keep;
use td_vm::laws::fitting_cells_have_room;
use td_vm::validate::Frame;
use td_words::seats::ReadSeat;
use td_words::shared::Shared;

/// Takes one post, trying again while the ring is empty.
fn take<J: Naming, R: Wait>(rt: &R, ring: &Ring<J>, pass: &mut TakePass) -> Post
    requires own { pass.old.queue ≡ ring.now.queue }
    ensures pass { pass.new ≡ pass_with pass.old (did_take pass.old.view result) }
    ensures named { J.names result }
{
    for _ in rt.forever() {
        if let Some(post) = ring.take(rt, pass) {
            return post;
        }
        // It yields and isn't parked: who parks looks at a word without a seat, so no history would tell of it, and each guest that posts
        // would have to wake somebody.
        thread::yield_now();
    }
    unreachable!()
}

/// How the message of a post lies that has no list of stretches. Takes no memory.
fn at_word(shared: &Shared, mail: &Mail) -> Layout
    requires { AreWithin shared.now.count (layout_of mail.now) }
    ensures { mail.now.layout ≡ None → result ≡ layout_of mail.now }
{
    if mail.layout.is_some() {
        return Layout::plain(0);
    }
    // That there are at most 2^32 - 1 words is what this call says.
    let _words = shared.count();
    Layout::words(mail.base, mail.length)
}

/// A list of stretches where there is one, and this layout otherwise.
fn list_or<'a>(list: &'a Option<Layout>, otherwise: &'a Layout) -> &'a Layout
    ensures { result.now ≡ unwrap_or list.now otherwise.now }
{
    match list {
        Some(layout) => layout,
        None => otherwise,
    }
}

/// Answers a post under a version of this entry point by a validation from the worker's own seat, in the worker's frame for it and
/// the post's room. It takes no memory, and no list of the room is let grow (that of loads can't: it only takes what it has room
/// for).
fn answer<J: Naming, G: Gate>(
    version: &Version,
    entry: Entry,
    desk: &Desk<J>,
    seat: &mut ReadSeat,
    frame: &mut Frame,
    post: Post,
    gate: &mut G,
) -> Reply
    requires own { seat.old.table ≡ desk.now.shared.table }
    requires mails { desk.now.mails.items ≡ all_mails 1 desk.now.job.guests }
    requires inside { All (λ m. AreWithin desk.now.shared.count (layout_of m)) desk.now.mails.items }
    requires code { IsCodeAt version.now.code desk.now.job version.now.number entry }
    requires armed { IsArmed version.now.code frame.old }
    requires fits { (frames : ℕ) × (frame.old.trace_room ≤ frames) × PostFits frames desk.now.job post }
    ensures table { seat.new.table ≡ seat.old.table }
    ensures armed { IsArmed version.now.code frame.new }
    ensures name { reply_name result ≡ post.name }
    ensures version { result.version ≡ version.now.number }
    ensures answered { Answered desk.now.job result }
    ensures read { HasLoaded (layout_in desk.now.mails.items result) seat.old seat.new result.loads.list }
    ensures memory { KeepsMemory post.room result }
{
    each_mail_is_named();
    fitting_cells_have_room();
    let Post {
        name,
        made: _,
        room,
    } = post;
    let Reply {
        guest: _,
        number: _,
        version: _,
        layout,
        verdict: _,
        mut trace,
        mut cells,
        mut copies,
        mut loads,
    } = room;
    let mails = desk.mails.as_slice();
    let Some(mail) = mail_of(mails, name) else {
        unreachable!()
    };
    let single = at_word(&desk.shared, mail);
    let laid = list_or(&layout, &single);
    message_is_short(laid);
    frame.set_cells(cells.as_slice());
    let message = LiveMessage {
        shared: &desk.shared,
        layout: laid,
        name,
    };
    let args = desk.job.args.as_slice();
    let verdict = validate_slot(
        &version.code,
        entry,
        args,
        &message,
        seat,
        frame,
        &mut loads,
        gate,
    );
    keep(frame, &mut trace, cells.as_mut_slice());
    keep_copies(frame.copies(), copies.buffers.as_mut_slice());
    Reply {
        guest: name.guest,
        number: name.number,
        version: version.number,
        layout,
        verdict,
        trace,
        cells,
        copies,
        loads,
    }
}

/// Looks once which version is published, and answers a post under it. It takes no memory, and no list of the post's room is let
/// grow.
fn answer_now<J: Naming, G: Gate>(
    desk: &Desk<J>,
    seat: &mut ReadSeat,
    swap: &mut SwapSeat,
    frames: &mut [Frame],
    post: Post,
    gate: &mut G,
) -> Reply
    requires own { (seat.old.table ≡ desk.now.shared.table) × IsOwn desk.now.codes swap.old }
    requires mails { desk.now.mails.items ≡ all_mails 1 desk.now.job.guests }
    requires inside { All (λ m. AreWithin desk.now.shared.count (layout_of m)) desk.now.mails.items }
    requires code { IsJobCode desk.now.codes.codes desk.now.job }
    requires armed { AreArmed desk.now.codes.codes frames.old }
    requires fits { PostFits (most_frames desk.now.codes.codes) desk.now.job post }
    ensures table { seat.new.table ≡ seat.old.table }
    ensures armed { AreArmed desk.now.codes.codes frames.new }
    ensures swap { swap.new ≡ then_loaded swap.old result.version }
    ensures name { reply_name result ≡ post.name }
    ensures answered { Answered desk.now.job result }
    ensures read { HasLoaded (layout_in desk.now.mails.items result) seat.old seat.new result.loads.list }
    ensures memory { KeepsMemory post.room result }
{
    let version = desk.codes.current(swap);
    let number = version.number as usize;
    let entry = desk.job.entries.as_slice()[number];
    answer(version, entry, desk, seat, &mut frames[number], post, gate)
}

/// Draws tickets, and for each that is below the count of posts takes a post and answers it; the first that isn't ends it, and
/// so does a reply to as many posts as there are. It takes no memory: there is a frame for each version, and room for a reply to
/// each post, of which no list is let grow.
pub fn run_worker<J: Naming, R: Wait, G: Gate>(rt: &R, desk: &Desk<J>, worker: &mut Worker<G>)
    requires own { (worker.old.seat.table ≡ desk.now.shared.table) × (worker.old.pass.queue ≡ desk.now.ring.queue) × (worker.old.drawer.table ≡ desk.now.tickets) × IsOwn desk.now.codes worker.old.swap }
    requires mails { desk.now.mails.items ≡ all_mails 1 desk.now.job.guests }
    requires inside { All (λ m. AreWithin desk.now.shared.count (layout_of m)) desk.now.mails.items }
    requires named_fit { (p : Post) → J.names p → PostFits (most_frames desk.now.codes.codes) desk.now.job p }
    requires code { IsJobCode desk.now.codes.codes desk.now.job }
    requires armed { AreArmed desk.now.codes.codes worker.old.frames.items }
    requires empty { worker.old.replies.items ≡ [] }
    requires room { length desk.now.mails.items ≤ vec_capacity worker.old.replies }
    ensures ran { RanWorker desk.now.job (length desk.now.mails.items) worker.old.seat worker.new.seat worker.old.pass worker.new.pass worker.old.drawer worker.new.drawer worker.old.swap worker.new.swap worker.new.replies.items }
    ensures memory { All (IsInRoom desk.now.codes.codes desk.now.job) worker.new.replies.items }
    ensures armed { AreArmed desk.now.codes.codes worker.new.frames.items }
{
    let Worker {
        seat,
        pass,
        drawer,
        swap,
        frames,
        replies,
        gate,
    } = worker;
    let mails = desk.mails.as_slice();
    let frames = frames.as_mut_slice();
    let count = mails.len() as u64;
    while replies.len() < mails.len() {
        if desk.tickets.draw(drawer) >= count {
            return;
        }
        let post = take(rt, &desk.ring, pass);
        let name = post.name;
        let reply = answer_now(desk, seat, swap, frames, post, gate);
        replies.push_reserved(reply);
        gate.after_reply(name);
    }
}
