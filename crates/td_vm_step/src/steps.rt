//! Steps, counted at no cost, or told as a number.

ghost use Rattle.std.specs.Prelude.{◌≡◌, ℕ, ◌+◌, ◌-◌, ◌^◌, ◌<◌, min};

use std::marker::Model;
use std::sync::ledger::{Blank, Book, Ledger, Share};

/// What a program is told of a count of steps while it rises.
pub trait Counter {
    /// So many steps are told as this.
    ghost tells: { Self → ℕ → Type 0 };

    /// One step more.
    fn more(&mut self)
        ensures { (n : ℕ) → tells self.old n → tells self.new (n + 1) };

    /// So many steps more.
    fn more_by(&mut self, more: u32)
        ensures { (n : ℕ) → tells self.old n → tells self.new (n + more) };
}

/// Tells nothing. It takes no bytes, and counting has no code.
#[derive(Drop)]
pub struct NoCounter;

impl Counter for NoCounter {
    ghost tells = { λ _ _. Unit {0} };

    fn more(&mut self) {}

    fn more_by(&mut self, _more: u32) {}
}

/// Tells how many steps there were; at 2^64 - 1 it stands still.
#[derive(Drop)]
pub struct StepCounter {
    pub count: u64,
}

impl Counter for StepCounter {
    ghost use Rattle.std.specs.Prelude.{◌≡◌, ◌-◌, ◌^◌, min};

    ghost tells = { λ c n. c.count ≡ min n (2 ^ 64 - 1) };

    fn more(&mut self) {
        self.count = self.count.saturating_add(1);
    }

    fn more_by(&mut self, more: u32) {
        self.count = self.count.saturating_add(u64::from(more));
    }
}

/// How many steps were taken. The count itself takes no bytes and has no code: it stands in proofs alone; what a program is told of it is
/// the counter's. A step is one instruction run, one byte that `Zeros` looks at, one element that `Zeroterm` looks at, or one
/// byte that `Copy` puts (docs/language/code.md).
#[derive(Drop)]
pub struct Steps<L: Ledger, C: Counter> {
    book: Book<L>,
    share: Share<L>,
    counter: C,
}

impl<L: Ledger, C: Counter> Model for Steps<L, C> {
    ghost use Rattle.std.specs.Prelude.{ℕ, ◌<◌};

    ghost Value = { ℕ };

    ghost view = { λ s. s.book.total };

    ghost invariant = { λ s. (0 < s.share.parts) × C.tells s.counter s.book.total };
}

impl<L: Ledger, C: Counter> Steps<L, C> {
    /// No steps. A caller that counts nothing gives `Blank::new(1)`.
    pub fn none(blank: Blank, counter: C) -> Steps<L, C>
        requires name { blank.name ≡ L.name }
        requires parts { blank.parts ≡ L.parts }
        requires some { 0 < blank.parts }
        requires counter { C.tells counter 0 }
        ensures { result ≡ 0 }
    {
        let (book, share) = blank.open::<L>();
        Steps {
            book,
            share,
            counter,
        }
    }

    /// One step more.
    pub fn tick(&mut self)
        ensures { self.new ≡ self.old + 1 }
    {
        self.book.add(&mut self.share, 1);
        self.counter.more();
    }

    /// So many steps more.
    pub fn add(&mut self, more: u32)
        ensures { self.new ≡ self.old + more }
    {
        self.book.add(&mut self.share, u64::from(more));
        self.counter.more_by(more);
    }

    /// What the counter tells of them.
    pub fn end(self) -> C
        ensures { C.tells result self }
    {
        let Steps {
            book: _,
            share: _,
            counter,
        } = self;
        counter
    }
}
