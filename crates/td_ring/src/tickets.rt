//! Tickets: numbers that threads draw.

ghost use Rattle.std.specs.Prelude.{◌≡◌, ℕ, List, IfOk};
ghost use Rattle.td_ring.specs.Roll.{Entry};
ghost use Rattle.td_ring.specs.Heads.{HasHead};
ghost use Rattle.td_ring.specs.Tickets.{first_view, did_draw, drawer_with, drawer_state, one_more, new_seat, with_seat, Drawn};

use crate::ticket_rule::{Draws, EachOnce, Seats, Tells};
use crate::ticket_seat::TicketSeat;
use crate::view::TicketView;
use atomic_table::Table;
use std::alloc::{AllocError, Global};
use std::marker::Model;

/// A counter, from which each draw takes the next number, from 0 on, modulo 2^64. A contract sees its table alone.
#[derive(Drop)]
pub struct Tickets {
    table: Table<u8, TicketView, (), EachOnce, Global>,
}

impl Model for Tickets {
    ghost use Rattle.std.specs.Prelude.{◌≡◌};
    ghost use Rattle.atomic_table.specs.Seated.{TableId};

    ghost Value = { TableId };

    ghost view = { λ t. t.table.shared.table_id };

    ghost invariant = { λ t. t.table.shared.table_id.words ≡ 1 };
}

impl Tickets {
    /// A counter at 0, and the seat that makes the others. `AllocError`: there was no memory for it.
    pub fn new(alloc: Global) -> Result<(Tickets, TicketSeat), AllocError>
        ensures { IfOk result (λ r. r.1 ≡ drawer_state r.0 first_view) }
    {
        let (table, seat) = Table::of_words(alloc, &[0], &())?;
        Ok((Tickets { table }, TicketSeat { seat }))
    }

    /// Draws the next number, in one step. The seat has just that draw more.
    pub fn draw(&self, seat: &mut TicketSeat) -> u64
        requires { seat.old.table ≡ self.now }
        ensures { seat.new ≡ drawer_with seat.old (did_draw seat.old.view result) }
    {
        self.table.shared.fetch_add::<Draws>(&mut seat.seat, 0, 1)
    }

    /// Makes a seat that drew nothing yet, by the seat that `new` gave. This takes no memory.
    pub fn split(&self, seat: &mut TicketSeat) -> TicketSeat
        requires own { seat.old.table ≡ self.now }
        requires head { HasHead seat.old.view.head }
        ensures kept { seat.new ≡ drawer_with seat.old (one_more seat.old.view) }
        ensures given { result ≡ drawer_with seat.old (new_seat seat.old.view) }
    {
        TicketSeat {
            seat: self.table.shared.split_seat::<Seats>(&mut seat.seat),
        }
    }

    /// Takes a seat back, with all that it drew, and tells of all draws: they are 0, 1, 2 .. modulo 2^64, each once, and once
    /// each seat made was taken back they are those of these seats.
    pub fn gather(&self, seat: &mut TicketSeat, other: TicketSeat)
        requires own { (seat.old.table ≡ self.now) × (other.table ≡ self.now) }
        requires head { HasHead seat.old.view.head }
        ensures view { seat.new ≡ drawer_with seat.old (with_seat seat.old.view other.view) }
        ensures told { (log : List (Entry ℕ)) × Drawn seat.new.view log }
    {
        let TicketSeat { seat: other } = other;
        self.table.shared.join_seat::<Seats>(&mut seat.seat, other);
        self.table.shared.load::<Tells>(&mut seat.seat, 0);
    }

    /// Tells of all draws, as `gather` does, where nothing is left to gather.
    pub fn tell(&self, seat: &mut TicketSeat)
        requires { seat.old.table ≡ self.now }
        ensures same { seat.new ≡ seat.old }
        ensures told { (log : List (Entry ℕ)) × Drawn seat.old.view log }
    {
        self.table.shared.load::<Tells>(&mut seat.seat, 0);
    }
}
