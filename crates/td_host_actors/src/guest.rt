//! Guests, which store to the buffer and post messages.

ghost use Rattle.std.specs.Prelude.{◌≡◌, ◌<◌, ◌^◌, [], length};
ghost use Rattle.td_words.specs.History.{stores};
ghost use Rattle.td_ring.specs.Ring.{pass_with, did_post};
ghost use Rattle.td_posts.specs.Posts.{mails_of};
ghost use Rattle.td_host_actors.specs.Acting.{RoomsFor, StoresInside, RanScript};

use crate::actor::{Desk, Guest};
use std::sync::Wait;
use std::thread;
use td_live::gate::Gate;
use td_posts::job::Step;
use td_posts::name::PostName;
use td_ring::naming::Naming;
use td_ring::passes::PostPass;
use td_ring::post::Post;
use td_ring::ring::Ring;
use td_words::seats::GuestSeat;

/// Posts, trying again while the ring is full.
fn post<J: Naming, R: Wait>(
    rt: &R,
    ring: &Ring<J>,
    pass: &mut PostPass,
    seat: &GuestSeat,
    post: Post,
)
    requires own { pass.old.queue ≡ ring.now.queue }
    requires made { post.made ≡ length (stores seat.now.view.steps) }
    requires named { J.names post }
    ensures { pass.new ≡ pass_with pass.old (did_post pass.old.view post) }
{
    let mut waiting = post;
    for _ in rt.forever() {
        match ring.post(rt, pass, seat, waiting) {
            Ok(()) => return,
            Err(full) => waiting = full.post,
        }
        // It yields and isn't parked, as a worker does (worker.rt).
        thread::yield_now();
    }
    unreachable!()
}

/// Makes the steps of a guest's script in order: stores to the buffer, and posts, each with the next of the rooms. The gate
/// is called before each step.
pub fn run_script<J: Naming, R: Wait, G: Gate>(rt: &R, desk: &Desk<J>, guest: &mut Guest<G>)
    requires own { (guest.old.seat.table ≡ desk.now.shared.table) × (guest.old.pass.queue ≡ desk.now.ring.queue) }
    requires inside { StoresInside desk.now.shared.count guest.old.script }
    requires few { length guest.old.script < 2 ^ 32 }
    requires fresh { stores guest.old.seat.view.steps ≡ [] }
    requires rooms { RoomsFor J.names (mails_of guest.old.number guest.old.script) guest.old.rooms.items }
    ensures { RanScript guest.old.number guest.old.script guest.old.seat guest.new.seat guest.old.pass guest.new.pass }
{
    let Guest {
        number: guest_number,
        script,
        seat,
        pass,
        rooms,
        gate,
    } = guest;
    let guest_number = *guest_number;
    let script = script.as_slice();
    let mut number = 0;
    let mut made = 0;
    for step in script {
        gate.before_step(guest_number, number + made + 1);
        match step {
            Step::Store { word, value } => {
                desk.shared.store(seat, *word, *value);
                made += 1;
            }
            Step::Post { .. } | Step::Scatter { .. } => {
                number += 1;
                let Some(room) = rooms.pop_front() else {
                    unreachable!()
                };
                let name = PostName {
                    guest: guest_number,
                    number,
                };
                post(rt, &desk.ring, pass, &*seat, Post { name, made, room });
            }
        }
    }
}
