//! The rule of the table, and what its steps tell. Word 0 of the table is the house's: it is 0 and nobody stores to it, so
//! that there is a word to load where a seat is made or gathered. Word i of the buffer is word i + 1 of the table.

use crate::view::View;
use atomic_table::{Join, Play, Split, TableRule};
use std::snapshot::Snapshot;

/// All loads and stores that were made stand in one history. The key is the words that the table was made of.
pub(crate) struct OneHistory;

impl TableRule<u8, View, Snapshot<Vec<u64>>> for OneHistory {
    ghost use Rattle.std.specs.Prelude.{[], drop};
    ghost use Rattle.td_words.specs.Rule.{KeepsHistory};
    ghost use Rattle.td_words.specs.Views.{host_view};
    ghost use Rattle.td_words.specs.declared.view.View.TheVariants.{Host};

    ghost holds = { λ _ s. KeepsHistory s };

    ghost first = { λ k. Host (host_view (drop 1 k.value.items) 0 []) };
}

/// A load of a word, by a reader or a guest.
pub(crate) struct Loads;

impl Play<u8, View> for Loads {
    ghost use Rattle.td_words.specs.Rule.{Loaded};

    ghost then = { Loaded };
}

/// A guest's store.
pub(crate) struct Stores;

impl Play<u8, View> for Stores {
    ghost use Rattle.td_words.specs.Rule.{Stored};

    ghost then = { Stored };
}

/// The host's load of word 0, which tells of the history.
pub(crate) struct Learns;

impl Play<u8, View> for Learns {
    ghost use Rattle.td_words.specs.Rule.{Learned};

    ghost then = { Learned };
}

/// The host makes a guest's seat.
pub(crate) struct Guests;

impl Split<View> for Guests {
    ghost use Rattle.std.specs.Prelude.{true};
    ghost use Rattle.td_words.specs.Rule.{host_in};
    ghost use Rattle.td_words.specs.Views.{one_more, new_seat};
    ghost use Rattle.td_words.specs.declared.view.View.TheVariants.{Host, Seat};

    ghost left = { λ v. Host (one_more (host_in v)) };

    ghost right = { λ v. Seat (new_seat (host_in v) true) };
}

/// The host makes a reader's seat.
pub(crate) struct Readers;

impl Split<View> for Readers {
    ghost use Rattle.std.specs.Prelude.{false};
    ghost use Rattle.td_words.specs.Rule.{host_in};
    ghost use Rattle.td_words.specs.Views.{one_more, new_seat};
    ghost use Rattle.td_words.specs.declared.view.View.TheVariants.{Host, Seat};

    ghost left = { λ v. Host (one_more (host_in v)) };

    ghost right = { λ v. Seat (new_seat (host_in v) false) };
}

/// The host takes a seat back, whose view is spent.
pub(crate) struct Gathers;

impl Join<View> for Gathers {
    ghost use Rattle.td_words.specs.Rule.{host_in, seat_in};
    ghost use Rattle.td_words.specs.Views.{with_ended};
    ghost use Rattle.td_words.specs.declared.view.View.TheVariants.{Host, Spent};

    ghost both = { λ v w. Host (with_ended (host_in v) (seat_in w)) };

    ghost spent = { Spent };
}
