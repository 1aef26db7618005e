//! The seats at the version word. A seat stands for what its owner did. None can be copied, so each has one list.

ghost use Rattle.std.specs.Prelude.{◌≡◌};

use crate::view::View;
use atomic_table::Seat;
use std::marker::Model;

/// The one publisher's seat. A contract sees its table and its view.
#[derive(Drop)]
pub struct PublishSeat {
    pub(crate) seat: Seat<u8, View>,
    /// The number that it published last, which is the one in its view: so a publication needs no load.
    pub(crate) number: u32,
}

impl Model for PublishSeat {
    ghost use Rattle.std.specs.Prelude.{◌≡◌, ◌≤◌};
    ghost use Rattle.td_swap.specs.declared.version.TheConstants.{MOST_VERSIONS};
    ghost use Rattle.td_swap.specs.Rule.{IsPublisher, publisher_in};
    ghost use Rattle.td_swap.specs.Seats.{PublishState};

    ghost Value = { PublishState };

    ghost view = { λ s. record { table = s.seat.table_id; view = publisher_in s.seat.me.0 } };

    ghost invariant = { λ s. IsPublisher s.seat.me × (s.number ≡ (publisher_in s.seat.me.0).number) × ((publisher_in s.seat.me.0).count ≤ MOST_VERSIONS) };
}

impl PublishSeat {
    /// The number of the version that was published last, and 0 before the first publication. This loads nothing.
    pub fn number(&self) -> u32
        ensures { result ≡ self.now.view.number }
    {
        self.number
    }
}

/// A seat that loads which version is published. A contract sees its table and its view.
#[derive(Drop)]
pub struct SwapSeat {
    pub(crate) seat: Seat<u8, View>,
}

impl Model for SwapSeat {
    ghost use Rattle.td_swap.specs.Rule.{IsSwap, swap_in};
    ghost use Rattle.td_swap.specs.Views.{AreVersions};
    ghost use Rattle.td_swap.specs.Seats.{SwapState};

    ghost Value = { SwapState };

    ghost view = { λ s. record { table = s.seat.table_id; view = swap_in s.seat.me.0 } };

    ghost invariant = { λ s. IsSwap s.seat.me × AreVersions (swap_in s.seat.me.0) };
}
