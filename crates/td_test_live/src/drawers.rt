//! Threads that draw tickets.

ghost use Rattle.std.specs.Prelude.{◌≡◌};
ghost use Rattle.td_ring.specs.Heads.{HasHead};

use std::alloc::{AllocError, Global};
use std::process::Abort;
use std::test::Fail;
use std::thread;
use td_ring::ticket_seat::TicketSeat;
use td_ring::tickets::Tickets;

const DRAWERS: usize = 8;

const EACH: usize = 12_500;

const DRAWS: usize = DRAWERS * EACH;

// A thread's seat, and what it drew.
#[derive(Drop)]
struct Drawer<'a> {
    tickets: &'a Tickets,
    seat: TicketSeat,
    drawn: Vec<u64>,
    ghost own: { seat.table ≡ tickets.now },
}

impl<'a> Drawer<'a> {
    // Draws, and keeps what it drew as far as there is room.
    fn draw_all(&mut self) {
        for _ in 0..EACH {
            let number = self.tickets.draw(&mut self.seat);
            let _kept = self.drawn.push(number);
        }
    }
}

#[tactic(auto, using(crate::proofs::Still::still_head))]
fn drawers<'a>(
    alloc: Global,
    tickets: &'a Tickets,
    first: &mut TicketSeat,
) -> Result<Vec<Drawer<'a>>, AllocError>
    requires own { first.old.table ≡ tickets.now }
    requires head { HasHead first.old.view.head }
{
    let mut drawers = Vec::new(alloc);
    for _ in 0..DRAWERS {
        drawers.push(Drawer {
            tickets,
            seat: tickets.split(first),
            drawn: Vec::with_capacity(alloc, EACH)?,
        })?;
    }
    Ok(drawers)
}

// Marks each number drawn. False: one isn't below the count of draws, or was marked before.
fn mark(drawn: &[u64], marks: &mut [bool]) -> bool {
    for number in drawn {
        match marks.get_mut(*number as usize) {
            Some(mark) if !*mark => *mark = true,
            _ => return false,
        }
    }
    true
}

// Each thread drew as many numbers as it should, and none was drawn twice.
fn check_drawn(rt: &impl Abort, alloc: Global, drawers: &[Drawer<'_>]) -> Result<(), Fail> {
    let mut marks = vec![in alloc; false; DRAWS]?;
    for drawer in drawers {
        assert_eq!(rt; drawer.drawn.len(), EACH);
        assert!(rt; mark(drawer.drawn.as_slice(), marks.as_mut_slice()));
    }
    Ok(())
}

#[test]
fn eight_threads_draw_each_number_once(rt: HostRuntime) -> Result<(), Fail> {
    let alloc = rt.alloc();
    let (tickets, mut first) = Tickets::new(alloc)?;
    let mut drawers = drawers(alloc, &tickets, &mut first)?;
    thread::for_each_mut(
        &rt,
        drawers.as_mut_slice(),
        DRAWERS,
        &|_, drawer| drawer.draw_all(),
    );
    let checked = check_drawn(&rt, alloc, drawers.as_slice());
    drop(drawers);
    drop(first);
    drop(tickets);
    checked
}
