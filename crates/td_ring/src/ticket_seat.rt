//! The seats that draw tickets. A seat has no bytes: it stands for what its owner drew. No seat can be copied.

use crate::view::TicketView;
use atomic_table::Seat;
use std::marker::Model;

/// A seat that draws. A contract sees its table and its view.
#[derive(Drop)]
pub struct TicketSeat {
    pub(crate) seat: Seat<u8, TicketView>,
}

impl Model for TicketSeat {
    ghost use Rattle.std.specs.Prelude.{◌≡◌, []};
    ghost use Rattle.td_ring.specs.Tickets.{DrawerState, CanDraw};

    ghost Value = { DrawerState };

    ghost view = { λ s. record { table = s.seat.table_id; view = s.seat.me.0 } };

    ghost invariant = { λ s. (s.seat.me.1 ≡ []) × CanDraw s.seat.me.0 };
}
