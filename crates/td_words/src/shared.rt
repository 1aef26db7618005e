//! A buffer of words that threads share.

ghost use Rattle.std.specs.Prelude.{◌≡◌, ℕ, suc, ◌+◌, ◌-◌, ◌^◌, ◌<◌, List, length, [], IfOk, true, false};
ghost use Rattle.td_words.specs.declared.view.Access.TheVariants.{Load, Store};
ghost use Rattle.td_words.specs.History.{Entry, memory_after};
ghost use Rattle.td_words.specs.Views.{host_view, one_more, new_seat, with_ended};
ghost use Rattle.td_words.specs.Gathered.{IsHistoryOf, Fetched};
ghost use Rattle.td_words.specs.Seats.{then_did, with_view, seat_state};

use crate::final_words::Final;
use crate::rule::{Gathers, Guests, Learns, Loads, OneHistory, Readers, Stores};
use crate::seats::{GuestSeat, HostSeat, ReadSeat};
use crate::view::View;
use atomic_table::Table;
use std::alloc::{AllocError, Global};
use std::marker::Model;
use std::snapshot::Snapshot;

/// Words of 64 bits that threads share, counted from 0. Each load and each store is one sequentially consistent operation on
/// one whole word; no lock covers two of them, and no call waits. A contract sees the table and how many words it has.
#[derive(Drop)]
pub struct Shared {
    pub(crate) table: Table<u8, View, Snapshot<Vec<u64>>, OneHistory, Global>,
}

impl Model for Shared {
    ghost use Rattle.std.specs.Prelude.{◌≡◌, ◌-◌, ◌<◌, ◌≤◌, ◌^◌};
    ghost use Rattle.td_words.specs.Seats.{BufferState};

    ghost Value = { BufferState };

    ghost view = { λ s. record { table = s.table.shared.table_id; count = s.table.shared.table_id.words - 1 } };

    ghost invariant = { λ s. (0 < s.table.shared.table_id.words) × (s.table.shared.table_id.slots ≡ 0) × (s.table.shared.table_id.words ≤ 2 ^ 32) };
}

impl Shared {
    /// A buffer that opens with these words, of which there are fewer than 2^32, and the host's seat at it. `AllocError`: there
    /// was no memory for them.
    pub fn open(alloc: Global, words: &[u64]) -> Result<(Shared, HostSeat), AllocError>
        requires { length words.now < 2 ^ 32 }
        ensures count { IfOk result (λ r. r.0.count ≡ length words.now) }
        ensures table { IfOk result (λ r. r.1.table ≡ r.0.table) }
        ensures view { IfOk result (λ r. r.1.view ≡ host_view words.now 0 []) }
    {
        let mut all = Vec::with_capacity(alloc, words.len() + 1)?;
        all.push(0)?;
        all.extend_from_slice(words)?;
        let (table, seat) = Table::of_words(alloc, all.as_slice(), &Snapshot::of(&all))?;
        Ok((Shared { table }, HostSeat { seat }))
    }

    /// How many words there are; this never changes.
    pub fn count(&self) -> u32
        ensures { result ≡ self.now.count }
    {
        (self.table.word_count() - 1) as u32
    }

    /// Makes a guest's seat, which did nothing yet. This takes no memory.
    pub fn split_guest(&self, host: &mut HostSeat) -> GuestSeat
        requires { host.old.table ≡ self.now.table }
        ensures host { host.new ≡ with_view host.old (one_more host.old.view) }
        ensures seat { result ≡ seat_state host.old.table (new_seat host.old.view true) }
    {
        GuestSeat {
            seat: self.table.shared.split_seat::<Guests>(&mut host.seat),
        }
    }

    /// Makes a reader's seat, which did nothing yet. This takes no memory.
    pub fn split_reader(&self, host: &mut HostSeat) -> ReadSeat
        requires { host.old.table ≡ self.now.table }
        ensures host { host.new ≡ with_view host.old (one_more host.old.view) }
        ensures seat { result ≡ seat_state host.old.table (new_seat host.old.view false) }
    {
        ReadSeat {
            seat: self.table.shared.split_seat::<Readers>(&mut host.seat),
        }
    }

    /// Stores v to word i, in one step. The seat has just that step more.
    pub fn store(&self, seat: &mut GuestSeat, i: u32, v: u64)
        requires own { seat.old.table ≡ self.now.table }
        requires inside { i < self.now.count }
        ensures { seat.new ≡ then_did seat.old (Store i v) }
    {
        self.table
            .shared
            .store::<Stores>(&mut seat.seat, i as usize + 1, v);
    }

    /// Loads word i, in one step. The seat has just that step more.
    pub fn load(&self, seat: &mut ReadSeat, i: u32) -> u64
        requires own { seat.old.table ≡ self.now.table }
        requires inside { i < self.now.count }
        ensures { seat.new ≡ then_did seat.old (Load i result) }
    {
        self.table
            .shared
            .load::<Loads>(&mut seat.seat, i as usize + 1)
    }

    /// Loads word i by a guest's seat, in one step: its own last store there, unless another's came since.
    pub fn load_back(&self, seat: &mut GuestSeat, i: u32) -> u64
        requires own { seat.old.table ≡ self.now.table }
        requires inside { i < self.now.count }
        ensures { seat.new ≡ then_did seat.old (Load i result) }
    {
        let place = i as usize + 1;
        self.table.shared.load::<Loads>(&mut seat.seat, place)
    }

    /// Takes a guest's seat back, with all that it did.
    pub fn gather_guest(&self, host: &mut HostSeat, seat: GuestSeat)
        requires host { host.old.table ≡ self.now.table }
        requires seat { seat.table ≡ self.now.table }
        ensures { host.new ≡ with_view host.old (with_ended host.old.view seat.view) }
    {
        let GuestSeat { seat } = seat;
        self.table.shared.join_seat::<Gathers>(&mut host.seat, seat);
    }

    /// Takes a reader's seat back, with all that it did.
    pub fn gather_reader(&self, host: &mut HostSeat, seat: ReadSeat)
        requires host { host.old.table ≡ self.now.table }
        requires seat { seat.table ≡ self.now.table }
        ensures { host.new ≡ with_view host.old (with_ended host.old.view seat.view) }
    {
        let ReadSeat { seat } = seat;
        self.table.shared.join_seat::<Gathers>(&mut host.seat, seat);
    }

    /// Tells of the history: there is one in which each gathered seat's steps stand. Once each seat made was gathered, no other
    /// step stands in it, and each word that one of them loaded opened the buffer or was stored by one of them.
    pub fn learn(&self, host: &mut HostSeat)
        requires { host.old.table ≡ self.now.table }
        ensures same { host.new ≡ host.old }
        ensures told { (log : List Entry) × IsHistoryOf host.old.view log }
        ensures fetched { length host.old.view.ended ≡ host.old.view.made → Fetched host.old.view }
    {
        self.table.shared.load::<Learns>(&mut host.seat, 0);
    }

    /// Ends the buffer. Its words are what a history of the gathered seats' steps leaves of the opening words: each is the last
    /// store to it. A seat that wasn't gathered may have stored too.
    pub fn close(self, host: HostSeat) -> Final
        requires { host.table ≡ self.table }
        ensures count { length result ≡ self.count }
        ensures told { (log : List Entry) × IsHistoryOf host.view log × (result ≡ memory_after host.view.opened log) }
    {
        let Shared { table } = self;
        let HostSeat { seat } = host;
        Final::new(table.close_with(seat))
    }
}
