//! The takes of one ring.

ghost use Rattle.std.specs.Prelude.{◌≡◌, ◌+◌, ◌*◌, ◌≤◌, [], length, vec_capacity, IfSome};
ghost use Rattle.td_core.specs.declared.module.Module.{Module};
ghost use Rattle.td_vm.specs.Frames.{IsArmed};
ghost use Rattle.td_descr.specs.Ring.{LiesWithin};
ghost use Rattle.td_takes.specs.Codes.{IsMessageCode};
ghost use Rattle.td_takes.specs.Takes.{Describes, MayLook, IsMessageRoom, IsRoom, AreRooms, IsTake, RanRing, HasMessage, HasNumber, IsDescRoom, IfJudged, HasDone, frames_of, message_steps, take_steps, taken_after};
ghost use Rattle.td_takes.specs.Kept.{IsKept};
ghost use Rattle.td_takes.specs.Memory.{KeepsMemory, KeepsRoom, KeepRooms};

use crate::take::{Take, TakeRoom};
use crate::validate::{Validator, look_ring, reply_of, validate_message};
use std::collections::VecDeque;
use td_descr::{Descr, Next};
use td_posts::{Reply, RingJob};
use td_vm::validate::Frame;
use td_words::seats::ReadSeat;

/// A ring of a job, and its number in the job, from 1.
#[derive(Clone, Copy)]
pub struct RingAt<'a> {
    pub job: &'a RingJob,
    pub number: u32,
}

/// The reply of the last descriptor's validation, where one waited.
fn desc_reply(descr: &Descr, number: u32, mut room: Reply) -> Option<Reply>
    requires room { IsDescRoom (frames_of descr.now.code) room }
    requires cells { IfJudged descr.now.last.verdict (length descr.now.frame.cells ≡ 3) }
    ensures kept { IsKept descr.now.last descr.now.frame result }
    ensures number { HasNumber number result }
    ensures memory { IfSome result (KeepsMemory room) }
{
    let last = descr.last();
    match last.verdict {
        None => None,
        Some(verdict) => {
            last.loads.put(&mut room.loads);
            Some(reply_of(descr.frame(), number, None, verdict, room))
        }
    }
}

/// The reply to the message that a look found, where it found one.
fn message_of(
    validator: &Validator<'_>,
    seat: &mut ReadSeat,
    frame: &mut Frame,
    next: Next,
    number: u32,
    most: u32,
    room: Reply,
) -> Option<Reply>
    requires own { seat.old.table ≡ validator.now.shared.now.table }
    requires inside { LiesWithin (8 * validator.now.shared.now.count) most next }
    requires code { IsMessageCode validator.now.code.now validator.now.job.now }
    requires armed { IsArmed validator.now.code.now frame.old }
    requires room { IsMessageRoom validator.now.job.now (frames_of validator.now.code.now) most room }
    ensures table { seat.new.table ≡ seat.old.table }
    ensures armed { IsArmed validator.now.code.now frame.new }
    ensures message { HasMessage validator.now.job.now next result }
    ensures number { HasNumber number result }
    ensures read { HasDone seat.old seat.new (message_steps next result) }
    ensures memory { IfSome result (KeepsMemory room) }
{
    match next {
        Next::Idle { made: _ } => None,
        Next::Overrun { made: _ } => None,
        Next::Bad { reason: _, pos: _ } => None,
        Next::Message {
            number: _,
            place,
            size,
            id: _,
        } => Some(validate_message(validator, seat, frame, place, size, number, room)),
    }
}

/// One take from a ring of the job: looks at it once, and validates the message of the descriptor where that is accepted, at the place and
/// size that were loaded. It takes no memory and waits for nobody.
pub fn take_once(
    validator: &Validator<'_>,
    ring: &RingAt<'_>,
    number: u32,
    descr: &mut Descr,
    seat: &mut ReadSeat,
    frame: &mut Frame,
    room: TakeRoom,
) -> Take
    requires ready { MayLook validator.now.shared.now validator.now.code.now ring.now.job.now descr.old seat.old frame.old }
    requires code { IsMessageCode validator.now.code.now validator.now.job.now }
    requires rooms { IsRoom validator.now.job.now (frames_of validator.now.code.now) (frames_of descr.old.code) ring.now.job.now.most room }
    ensures ready { MayLook validator.now.shared.now validator.now.code.now ring.now.job.now descr.new seat.new frame.new }
    ensures ring { result.ring ≡ ring.now.number }
    ensures number { result.number ≡ number }
    ensures descr { descr.new ≡ record descr.old { taken = taken_after descr.old.taken result.next; frame = descr.new.frame; last = descr.new.last } }
    ensures take { (m : Module) → Describes m descr.old.code descr.old.room ring.now.job.now.most → IsTake validator.now.job.now m descr.old.room ring.now.job.now descr.old.taken result }
    ensures read { HasDone seat.old seat.new (take_steps ring.now.job.now descr.old.taken result) }
    ensures memory { KeepsRoom room result }
{
    let TakeRoom {
        descr: desc_room,
        message: message_room,
    } = room;
    let next = look_ring(validator.shared, seat, ring.job, number, descr);
    let desc = desc_reply(descr, number, desc_room);
    let message = message_of(
        validator,
        seat,
        frame,
        next,
        number,
        ring.job.most,
        message_room,
    );
    Take {
        ring: ring.number,
        number,
        head: descr.last().head,
        next,
        descr: desc,
        message,
    }
}

/// Makes all takes from a ring of the job, each with the next of the rooms. It takes no memory and waits for nobody.
pub fn run_ring(
    validator: &Validator<'_>,
    ring: &RingAt<'_>,
    descr: &mut Descr,
    seat: &mut ReadSeat,
    frame: &mut Frame,
    rooms: &mut VecDeque<TakeRoom>,
    takes: &mut Vec<Take>,
)
    requires ready { MayLook validator.now.shared.now validator.now.code.now ring.now.job.now descr.old seat.old frame.old }
    requires none { descr.old.taken ≡ 0 }
    requires code { IsMessageCode validator.now.code.now validator.now.job.now }
    requires rooms { AreRooms validator.now.job.now (frames_of validator.now.code.now) (frames_of descr.old.code) ring.now.job.now.most rooms.old.items }
    requires as_many { length rooms.old.items ≡ ring.now.job.now.takes }
    requires empty { takes.old.items ≡ [] }
    requires space { ring.now.job.now.takes ≤ vec_capacity takes.old }
    ensures ready { MayLook validator.now.shared.now validator.now.code.now ring.now.job.now descr.new seat.new frame.new }
    ensures ran { RanRing validator.now.job.now descr.old.code descr.old.room ring.now.job.now ring.now.number seat.old seat.new takes.new.items }
    ensures memory { KeepRooms rooms.old.items takes.new.items }
{
    for i in 0..ring.job.takes {
        let Some(room) = rooms.pop_front() else {
            unreachable!()
        };
        let take = take_once(validator, ring, i + 1, descr, seat, frame, room);
        takes.push_reserved(take);
    }
}
