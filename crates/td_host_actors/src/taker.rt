//! Takers, each of which looks at one ring.

ghost use Rattle.td_takes.specs.Takes.{RanRing};
ghost use Rattle.td_takes.specs.Memory.{KeepRooms};
ghost use Rattle.td_host_actors.specs.Replies.{IsJobCode};
ghost use Rattle.td_host_actors.specs.Actors.{IsTakerReady};

use crate::actor::{Desk, Taker};
use td_ring::naming::Naming;
use td_takes::{RingAt, Validator, run_ring};

/// Makes all takes of a ring, each with the next of the rooms. Messages are validated under version 0, whatever is published. It
/// takes no memory and waits for nobody.
pub fn run_taker<J: Naming>(desk: &Desk<J>, taker: &mut Taker)
    requires ready { IsTakerReady desk.now.shared desk.now.codes.codes desk.now.job taker.old }
    requires code { IsJobCode desk.now.codes.codes desk.now.job }
    ensures ran { RanRing desk.now.job taker.old.descr.code taker.old.descr.room taker.old.ring taker.old.number taker.old.seat taker.new.seat taker.new.takes.items }
    ensures memory { KeepRooms taker.old.rooms.items taker.new.takes.items }
{
    let Taker {
        number,
        ring,
        descr,
        seat,
        frame,
        rooms,
        takes,
    } = taker;
    let versions = desk.codes.versions();
    let at = RingAt {
        job: &*ring,
        number: *number,
    };
    let validator = Validator {
        code: &versions[0].code,
        job: &desk.job,
        shared: &desk.shared,
    };
    run_ring(&validator, &at, descr, seat, frame, rooms, takes);
}
