//! The validations of a take.

ghost use Rattle.std.specs.Prelude.{◌≡◌, ◌+◌, ◌*◌, ◌≤◌, [], ◌∷◌, length, vec_capacity};
ghost use Rattle.td_vm.specs.Frames.{IsArmed};
ghost use Rattle.td_stream.specs.Copies.{held_by};
ghost use Rattle.td_posts.specs.Posts.{outcome_in};
ghost use Rattle.td_posts.specs.declared.limits.TheConstants.{MOST_ENTRIES as most_entries};
ghost use Rattle.td_live.specs.Live.{HasLoaded};
ghost use Rattle.td_descr.specs.Words.{load_of, raised};
ghost use Rattle.td_descr.specs.Ring.{Answers, LiesWithin, standing, ring_words, desc_word};
ghost use Rattle.td_takes.specs.Codes.{IsMessageCode};
ghost use Rattle.td_takes.specs.Memory.{KeepsMemory};
ghost use Rattle.td_takes.specs.Takes.{IsMessage, IsMessageRoom, frames_of, message_layout, ring_layout};

use td_core::outcome::{TraceFrame, Verdict};
use td_descr::{Descr, Next};
use td_live::gate::{OpenGate, PostName};
use td_live::live::LiveWords;
use td_live::message::LiveMessage;
use td_live::slot::validate_slot;
use td_posts::copies::keep_copies;
use td_posts::{HostJob, Reply, RingJob};
use td_stream::laws::message_is_short;
use td_stream::layout::Layout;
use td_verify::verify::Verified;
use td_vm::laws::fitting_cells_have_room;
use td_vm::validate::Frame;
use td_words::seats::ReadSeat;
use td_words::shared::Shared;

/// What validates the messages that rings name: the code of version 0, the job, which has its entry point and arguments, and the buffer.
#[derive(Clone, Copy)]
pub struct Validator<'a> {
    pub code: &'a Verified,
    pub job: &'a HostJob,
    pub shared: &'a Shared,
}

/// Puts what the last validation left in a frame into room that was taken for it, of which no list is let grow.
pub fn keep(frame: &Frame, trace: &mut Vec<TraceFrame>, cells: &mut [u64])
    requires empty { trace.old.items ≡ [] }
    requires room { frame.now.trace_room ≤ vec_capacity trace.old }
    requires cells { length cells.old ≡ length frame.now.cells }
    ensures trace { trace.new.items ≡ frame.now.trace }
    ensures cells { cells.new ≡ frame.now.cells }
    ensures memory { vec_capacity trace.new ≡ vec_capacity trace.old }
{
    cells.copy_from_slice(frame.cells());
    let lines = frame.trace();
    for line in lines {
        trace.push_reserved(*line);
    }
}

/// The reply of a validation that left its trace and cells in a frame, in room that was taken for it and has the loads and the copies
/// already; of no guest, and with version 0.
pub(crate) fn reply_of(
    frame: &Frame,
    number: u32,
    layout: Option<Layout>,
    verdict: Verdict,
    room: Reply,
) -> Reply
    requires empty { room.trace.items ≡ [] }
    requires room { frame.now.trace_room ≤ vec_capacity room.trace }
    requires cells { length room.cells.items ≡ length frame.now.cells }
    ensures guest { result.guest ≡ 0 }
    ensures number { result.number ≡ number }
    ensures version { result.version ≡ 0 }
    ensures layout { result.layout ≡ layout }
    ensures outcome { outcome_in result ≡ record { verdict = verdict; trace = frame.now.trace; cells = frame.now.cells; copies = held_by room.copies.buffers.items } }
    ensures loads { result.loads ≡ room.loads }
    ensures memory { KeepsMemory room result }
{
    let Reply {
        guest: _,
        number: _,
        version: _,
        layout: _,
        verdict: _,
        mut trace,
        mut cells,
        copies,
        loads,
    } = room;
    keep(frame, &mut trace, cells.as_mut_slice());
    Reply {
        guest: 0,
        number,
        version: 0,
        layout,
        verdict,
        trace,
        cells,
        copies,
        loads,
    }
}

/// Validates the message of this place and size by version 0's entry point, from the ring's seat.
pub(crate) fn validate_message(
    validator: &Validator<'_>,
    seat: &mut ReadSeat,
    frame: &mut Frame,
    place: u32,
    size: u32,
    number: u32,
    mut room: Reply,
) -> Reply
    requires own { seat.old.table ≡ validator.now.shared.now.table }
    requires inside { place + size ≤ 8 * validator.now.shared.now.count }
    requires code { IsMessageCode validator.now.code.now validator.now.job.now }
    requires armed { IsArmed validator.now.code.now frame.old }
    requires room { IsMessageRoom validator.now.job.now (frames_of validator.now.code.now) size room }
    ensures table { seat.new.table ≡ seat.old.table }
    ensures armed { IsArmed validator.now.code.now frame.new }
    ensures message { IsMessage validator.now.job.now place size result }
    ensures number { result.number ≡ number }
    ensures read { HasLoaded (message_layout place size) seat.old seat.new result.loads.list }
    ensures memory { KeepsMemory room result }
{
    fitting_cells_have_room();
    let layout = Layout::one(place, size);
    message_is_short(&layout);
    frame.set_cells(room.cells.as_slice());
    let message = LiveMessage {
        shared: validator.shared,
        layout: &layout,
        name: PostName { guest: 0, number },
    };
    let args = validator.job.args.as_slice();
    let entries = validator.job.entries.as_slice();
    let mut gate = OpenGate;
    let verdict = validate_slot(
        validator.code,
        entries[0],
        args,
        &message,
        seat,
        frame,
        &mut room.loads,
        &mut gate,
    );
    keep_copies(frame.copies(), room.copies.buffers.as_mut_slice());
    reply_of(frame, number, Some(layout), verdict, room)
}

/// Looks at the ring once, from its seat.
pub(crate) fn look_ring(
    shared: &Shared,
    seat: &mut ReadSeat,
    ring: &RingJob,
    number: u32,
    descr: &mut Descr,
) -> Next
    requires own { seat.old.table ≡ shared.now.table }
    requires entries { descr.old.entries ≡ ring.now.entries }
    requires few { ring.now.entries ≤ most_entries }
    requires inside { ring.now.base + ring_words ring.now.entries ≤ shared.now.count }
    ensures table { seat.new.table ≡ seat.old.table }
    ensures answers { Answers (standing ring.now.entries descr.old.taken descr.new.last.head) descr.old descr.new result }
    ensures read { HasLoaded (ring_layout ring.now) seat.old seat.new
        (load_of 0 descr.new.last.head ∷ raised (desc_word ring.now.entries descr.old.taken) descr.new.last.loads) }
    ensures within { LiesWithin descr.old.room descr.old.most result }
{
    // That there are at most 2^32 - 1 words is what this call says.
    let _words = shared.count();
    let layout = Layout::words(ring.base, 8 * (1 + 2 * ring.entries));
    let name = PostName { guest: 0, number };
    let mut gate = OpenGate;
    let mut words = LiveWords::over(shared, seat, &layout, name, &mut gate);
    let next = descr.next(&mut words);
    words.end();
    next
}
