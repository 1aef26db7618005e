//! The seats at a buffer. A seat has no bytes: it stands for what its owner did. No seat can be copied, so each has one
//! list of steps.

use crate::view::View;
use atomic_table::Seat;
use std::marker::Model;

/// The host's seat, which makes the others and gathers them. A contract sees its table and its view.
#[derive(Drop)]
pub struct HostSeat {
    pub(crate) seat: Seat<u8, View>,
}

impl Model for HostSeat {
    ghost use Rattle.td_words.specs.Rule.{IsHost, host_in};
    ghost use Rattle.td_words.specs.Seats.{HostState};

    ghost Value = { HostState };

    ghost view = { λ s. record { table = s.seat.table_id; view = host_in s.seat.me.0 } };

    ghost invariant = { λ s. IsHost s.seat.me };
}

/// The seat of a guest, which stores to words and may load them back.
#[derive(Drop)]
pub struct GuestSeat {
    pub(crate) seat: Seat<u8, View>,
}

impl Model for GuestSeat {
    ghost use Rattle.td_words.specs.Rule.{IsSeat, seat_in};
    ghost use Rattle.td_words.specs.Seats.{SeatState};

    ghost Value = { SeatState };

    ghost view = { λ s. record { table = s.seat.table_id; view = seat_in s.seat.me.0 } };

    ghost invariant = { λ s. IsSeat s.seat.me };
}

/// The seat of a reader, which only loads words.
#[derive(Drop)]
pub struct ReadSeat {
    pub(crate) seat: Seat<u8, View>,
}

impl Model for ReadSeat {
    ghost use Rattle.td_words.specs.Rule.{IsSeat, seat_in};
    ghost use Rattle.td_words.specs.Seats.{SeatState};

    ghost Value = { SeatState };

    ghost view = { λ s. record { table = s.seat.table_id; view = seat_in s.seat.me.0 } };

    ghost invariant = { λ s. IsSeat s.seat.me };
}
