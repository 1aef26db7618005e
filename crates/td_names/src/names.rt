//! Names, numbered in the order in which they are seen first.

ghost use Rattle.std.specs.Prelude.{◌≡◌, ◌<◌, false, [], Some, OnOk, OnErr, IfOk, nat_le, length, slice_get, take};
ghost use Rattle.td_names.specs.Names.{with_name, is_seen, number_of};

use crate::table::Table;
use std::alloc::{AllocError, Global};
use std::marker::Model;
use td_num::items::Items;
use td_num::text::Text;

/// Distinct names in order. A contract sees the list of their bytes.
#[derive(Drop)]
pub struct Names {
    table: Table<()>,
}

impl Model for Names {
    ghost use Rattle.std.specs.Prelude.{ℕ, List, length, ◌<◌, ◌^◌};
    ghost use Rattle.td_names.specs.Places.{names_of};

    ghost Value = { List (List ℕ) };

    ghost view = { λ n. names_of n.table };

    ghost invariant = { λ n. length n.table < 2 ^ 32 };
}

impl Names {
    /// No names. Takes no memory.
    pub fn new(alloc: Global) -> Names
        ensures { result ≡ [] }
    {
        Names {
            table: Table::new(alloc),
        }
    }

    // Whether all 2^32 - 1 numbers are given.
    fn is_full(&self) -> bool
        ensures { result ≡ nat_le 4294967295 (length self.now) }
    {
        self.table.len() >= u32::MAX as usize
    }

    /// One more name, unless it was seen. `AllocError`: it wasn't, and there was no memory for it, or all 2^32 - 1
    /// numbers are given; the names are as before.
    pub fn see(&mut self, alloc: Global, name: &[u8]) -> Result<(), AllocError>
        ensures ok { OnOk result (self.new ≡ with_name self.old name.now) }
        ensures err { OnErr result (self.new ≡ self.old) }
        ensures unseen { OnErr result (is_seen self.old name.now ≡ false) }
    {
        if self.contains(name) {
            return Ok(());
        }
        if self.is_full() {
            return Err(AllocError);
        }
        self.table.declare(alloc, name, ())
    }

    /// Whether a name was seen.
    pub fn contains(&self, name: &[u8]) -> bool
        ensures { result ≡ is_seen self.now name.now }
    {
        self.table.contains(name)
    }

    /// The number of a name, from 0, and of one that was never seen the count of names.
    pub fn number(&self, name: &[u8]) -> u32
        ensures { result ≡ number_of self.now name.now }
    {
        match self.table.place(name) {
            Some(number) => number as u32,
            None => self.table.len() as u32,
        }
    }

    /// The name of this number.
    pub fn name(&self, number: usize) -> &[u8]
        requires { number < length self.now }
        ensures { slice_get self.now number ≡ Some result.now }
    {
        self.table.name(number)
    }

    /// A copy of the names. `AllocError`: there are some, and there was no memory for them.
    pub fn texts(&self, alloc: Global) -> Result<Items<Text>, AllocError>
        ensures ok { IfOk result (λ t. t ≡ self.now) }
        ensures memory { OnErr result (0 < length self.now) }
    {
        let mut texts = Items::new(alloc);
        for entry in self.table.entries.as_slice() {
            texts.push(Text::copy_of(alloc, entry.0.as_slice())?)?;
        }
        Ok(texts)
    }

    /// How many names there are.
    pub fn len(&self) -> usize
        ensures { result ≡ length self.now }
    {
        self.table.len()
    }

    /// Keeps the first names, so many of them. Takes no memory.
    pub fn truncate(&mut self, len: usize)
        ensures { self.new ≡ take len self.old }
    {
        self.table.truncate(len);
    }
}
