//! Distinct numbers.

ghost use Rattle.std.specs.Prelude.{◌≡◌, [], OnOk, OnErr, false};
ghost use Rattle.td_names.specs.Numbers.{is_among, with_number};

use std::alloc::{AllocError, Global};
use std::collections::BTreeSet;
use std::marker::Model;

/// Distinct numbers in order. A contract sees the list of them.
#[derive(Drop)]
pub struct Numbers {
    numbers: Vec<u64>,
    set: BTreeSet<u64>,
}

impl Model for Numbers {
    ghost use Rattle.std.specs.Prelude.{ℕ, List};
    ghost use Rattle.td_names.specs.Numbers.{AreAlike};

    ghost Value = { List ℕ };

    ghost view = { λ n. n.numbers.items };

    ghost invariant = { λ n. AreAlike n.numbers.items n.set.keys };
}

impl Numbers {
    /// No numbers. Takes no memory.
    pub fn new(alloc: Global) -> Numbers
        ensures { result ≡ [] }
    {
        Numbers {
            numbers: Vec::new(alloc),
            set: BTreeSet::new(alloc),
        }
    }

    /// Whether a number is among them.
    pub fn contains(&self, number: u64) -> bool
        ensures { result ≡ is_among self.now number }
    {
        self.set.contains(&number)
    }

    /// One more number, unless it is there. `AllocError`: it wasn't, and there was no memory for it; the numbers are as
    /// before.
    pub fn add(&mut self, number: u64) -> Result<(), AllocError>
        ensures ok { OnOk result (self.new ≡ with_number self.old number) }
        ensures err { OnErr result (self.new ≡ self.old) }
        ensures unseen { OnErr result (is_among self.old number ≡ false) }
    {
        if self.contains(number) {
            return Ok(());
        }
        self.numbers.reserve(1)?;
        self.set.insert(number)?;
        self.numbers.push(number)?;
        Ok(())
    }
}
