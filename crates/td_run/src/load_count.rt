//! How many loads runs made, told to proofs alone.

ghost use Rattle.std.specs.Prelude.{◌≡◌, ◌+◌, ◌<◌, length};

use std::marker::Model;
use std::sync::ledger::{Blank, Book, Ledger, Share};
use td_stream::loads::Loads;

/// How many loads the runs made that were counted here. It takes no bytes and counting has no code: the count stands in proofs
/// alone, where it says of a call that has no other word of it that no word was loaded. It never falls.
#[derive(Drop)]
pub struct LoadCount<L: Ledger> {
    book: Book<L>,
    share: Share<L>,
}

impl<L: Ledger> Model for LoadCount<L> {
    ghost use Rattle.std.specs.Prelude.{ℕ, ◌<◌};

    ghost Value = { ℕ };

    ghost view = { λ s. s.book.total };

    ghost invariant = { λ s. 0 < s.share.parts };
}

impl<L: Ledger> LoadCount<L> {
    /// No loads.
    pub fn none(blank: Blank) -> LoadCount<L>
        requires name { blank.name ≡ L.name }
        requires parts { blank.parts ≡ L.parts }
        requires some { 0 < blank.parts }
        ensures { result ≡ 0 }
    {
        let (book, share) = blank.open::<L>();
        LoadCount { book, share }
    }

    /// As many more as a run made.
    pub fn add(&mut self, loads: &Loads)
        ensures { self.new ≡ self.old + length loads.now.list }
    {
        self.book
            .add(&mut self.share, loads.as_slice().len() as u64);
    }
}
