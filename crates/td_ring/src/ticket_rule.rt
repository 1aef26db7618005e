//! The rule of tickets, and what its steps tell.

use crate::view::TicketView;
use atomic_table::{Join, Play, Split, TableRule};

/// The numbers drawn are 0, 1, 2 .. modulo 2^64, and the table's word is how many they are, modulo 2^64.
pub(crate) struct EachOnce;

impl TableRule<u8, TicketView, ()> for EachOnce {
    ghost use Rattle.td_ring.specs.Tickets.{KeepsCount, first_view};

    ghost holds = { λ _ s. KeepsCount s };

    ghost first = { λ _. first_view };
}

/// A draw.
pub(crate) struct Draws;

impl Play<u8, TicketView> for Draws {
    ghost use Rattle.td_ring.specs.Tickets.{Drew};

    ghost then = { Drew };
}

/// A look at the word, which tells of all draws.
pub(crate) struct Tells;

impl Play<u8, TicketView> for Tells {
    ghost use Rattle.td_ring.specs.Tickets.{Learned};

    ghost then = { Learned };
}

/// A seat is made, or gathered.
pub(crate) struct Seats;

impl Split<TicketView> for Seats {
    ghost use Rattle.td_ring.specs.Tickets.{one_more, new_seat};

    ghost left = { one_more };

    ghost right = { new_seat };
}

impl Join<TicketView> for Seats {
    ghost use Rattle.td_ring.specs.Tickets.{with_seat, no_view};

    ghost both = { with_seat };

    ghost spent = { no_view };
}
