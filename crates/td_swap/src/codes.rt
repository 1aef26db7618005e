//! Codes of which one is published after the other.

ghost use Rattle.std.specs.Prelude.{◌≡◌, ◌+◌, ◌<◌, ◌≤◌, length, map, slice_get, Some, IfOk};
ghost use Rattle.td_swap.specs.declared.version.TheConstants.{MOST_VERSIONS};
ghost use Rattle.td_swap.specs.Views.{publisher_view, new_view, AreVersions};
ghost use Rattle.td_swap.specs.Versions.{version_code, AreNumbered};
ghost use Rattle.td_swap.specs.Seats.{IsPublishers, IsOwn, publish_state, swap_state, then_published, then_loaded, then_split, then_gathered};

use crate::rule::{Another, First, Gathers, Loads, NeverFalls, Publishes};
use crate::seats::{PublishSeat, SwapSeat};
use crate::version::{MOST_VERSIONS, Version};
use crate::view::View;
use atomic_table::Table;
use std::alloc::{AllocError, Global};
use std::marker::Model;
use td_verify::verify::Verified;

/// Codes, numbered from 0 in their order, and the number of the one that is published, in a word that threads share. The codes
/// never change: what isn't in the list can't be published. No call waits. A contract sees the word's table and the codes.
#[derive(Drop)]
pub struct Codes {
    table: Table<u8, View, usize, NeverFalls, Global>,
    versions: Vec<Version>,
}

impl Model for Codes {
    ghost use Rattle.std.specs.Prelude.{◌≡◌, ◌≤◌, map, length};
    ghost use Rattle.td_swap.specs.declared.version.TheConstants.{MOST_VERSIONS};
    ghost use Rattle.td_swap.specs.Versions.{CodesState, version_code, AreNumbered};

    ghost Value = { CodesState };

    ghost view = { λ c. record { table = c.table.shared.table_id; codes = map version_code c.versions.items } };

    ghost invariant = { λ c. (c.table.shared.table_id.words ≡ 1) × AreNumbered 0 c.versions.items × (length c.versions.items ≤ MOST_VERSIONS) };
}

/// These codes as versions, numbered from 0.
fn numbered(alloc: Global, codes: Vec<Verified>) -> Result<Vec<Version>, AllocError>
    requires { length codes.items ≤ MOST_VERSIONS }
    ensures codes { IfOk result (λ v. map version_code v.items ≡ codes.items) }
    ensures numbers { IfOk result (λ v. AreNumbered 0 v.items) }
{
    let mut versions = Vec::new(alloc);
    let mut number = 0;
    for code in codes {
        versions.push(Version { number, code })?;
        number += 1;
    }
    Ok(versions)
}

impl Codes {
    /// Versions of these codes, the first of them published; the publisher's seat; and the seat that makes the others, which
    /// loaded nothing yet. `AllocError`: there was no memory for them.
    pub fn open(
        alloc: Global,
        codes: Vec<Verified>,
    ) -> Result<(Codes, PublishSeat, SwapSeat), AllocError>
        requires some { 0 < length codes.items }
        requires few { length codes.items ≤ MOST_VERSIONS }
        ensures codes { IfOk result (λ r. r.0.codes ≡ codes.items) }
        ensures publisher { IfOk result (λ r. r.1 ≡ publish_state r.0.table (publisher_view (length codes.items) 0)) }
        ensures seat { IfOk result (λ r. r.2 ≡ swap_state r.0.table (new_view (length codes.items))) }
    {
        let count = codes.len();
        let versions = numbered(alloc, codes)?;
        let (table, mut seat) = Table::of_words(alloc, &[0], &count)?;
        let first = table.shared.split_seat::<First>(&mut seat);
        let codes = Codes { table, versions };
        Ok((
            codes,
            PublishSeat { seat, number: 0 },
            SwapSeat { seat: first },
        ))
    }

    /// All versions, by number. This loads nothing, and so tells nothing of which one is published.
    pub fn versions(&self) -> &[Version]
        ensures codes { map version_code result.now ≡ self.now.codes }
        ensures numbers { AreNumbered 0 result.now }
    {
        self.versions.as_slice()
    }

    /// Publishes the next version, in one store, and answers its number.
    pub fn publish(&self, seat: &mut PublishSeat) -> u32
        requires own { IsPublishers self.now seat.old }
        requires left { seat.old.view.number + 1 < length self.now.codes }
        ensures number { result ≡ seat.old.view.number + 1 }
        ensures seat { seat.new ≡ then_published seat.old }
    {
        seat.number += 1;
        self.table
            .shared
            .store::<Publishes>(&mut seat.seat, 0, u64::from(seat.number));
        seat.number
    }

    /// Loads which version is published, in one load, and lends that version. The seat has just that number more, and its
    /// numbers never fall.
    pub fn current(&self, seat: &mut SwapSeat) -> &Version
        requires { IsOwn self.now seat.old }
        ensures seat { seat.new ≡ then_loaded seat.old result.now.number }
        ensures code { slice_get self.now.codes result.now.number ≡ Some result.now.code }
        ensures versions { AreVersions seat.new.view }
    {
        let number = self.table.shared.load::<Loads>(&mut seat.seat, 0);
        &self.versions[number as usize]
    }

    /// Makes a seat that loaded nothing yet; the seat has made one more. This takes no memory.
    pub fn split(&self, seat: &mut SwapSeat) -> SwapSeat
        requires { IsOwn self.now seat.old }
        ensures made { seat.new ≡ then_split seat.old }
        ensures given { result ≡ swap_state seat.old.table (new_view seat.old.view.count) }
    {
        SwapSeat {
            seat: self.table.shared.split_seat::<Another>(&mut seat.seat),
        }
    }

    /// Takes a seat back, with the numbers that it loaded and those of the seats gathered into it. None of these lists falls,
    /// and all have numbers of versions alone.
    pub fn gather(&self, seat: &mut SwapSeat, other: SwapSeat)
        requires own { IsOwn self.now seat.old }
        requires other { IsOwn self.now other }
        ensures seat { seat.new ≡ then_gathered seat.old other }
        ensures versions { AreVersions seat.new.view }
    {
        let SwapSeat { seat: other } = other;
        self.table
            .shared
            .join_seat::<Gathers>(&mut seat.seat, other);
    }
}
