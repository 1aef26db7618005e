//! Names with what stands beside them.

ghost use Rattle.std.specs.Prelude.{◌≡◌, ◌<◌, [], Some, is_some, false, length, slice_get, take, OnOk, OnErr};
ghost use Rattle.std.specs.Option.{option_copied};
ghost use Rattle.td_names.specs.Names.{looked_up, declared};
ghost use Rattle.td_names.specs.Places.{names_of, place_of, is_at, value_at};

use std::alloc::{AllocError, Global};
use std::collections::BTreeMap;
use std::marker::Model;

/// Distinct names in order, with a value beside each. A contract sees the list of these pairs.
#[derive(Drop)]
pub struct Table<V> {
    pub(crate) entries: Vec<(Vec<u8>, V)>,
    // The place of each name among the entries. It may hold names that are there no more, at whose places others or none are.
    places: BTreeMap<Vec<u8>, usize>,
}

impl<V> Model for Table<V> {
    ghost use Rattle.std.specs.Prelude.{ℕ, List};
    ghost use Rattle.td_names.specs.Places.{entries_of, ArePlaced};

    ghost Value = { List (List ℕ × V) };

    ghost view = { λ t. entries_of t.entries.items };

    ghost invariant = { λ t. ArePlaced 0 (entries_of t.entries.items) t.places.entries };
}

impl<V: Drop> Table<V> {
    /// No names. Takes no memory.
    pub fn new(alloc: Global) -> Table<V>
        ensures { result ≡ [] }
    {
        Table {
            entries: Vec::new(alloc),
            places: BTreeMap::new(alloc),
        }
    }

    /// How many names there are.
    pub fn len(&self) -> usize
        ensures { result ≡ length self.now }
    {
        self.entries.len()
    }

    /// The name at a place.
    pub(crate) fn name(&self, place: usize) -> &[u8]
        requires { place < length self.now }
        ensures { slice_get (names_of self.now) place ≡ Some result.now }
    {
        self.entries[place].0.as_slice()
    }

    /// The place of a name, from 0.
    pub(crate) fn place(&self, name: &[u8]) -> Option<usize>
        ensures { result ≡ place_of 0 self.now name.now }
    {
        match self.places.get(name) {
            None => None,
            Some(place) => {
                if self.is_at(*place, name) {
                    Some(*place)
                } else {
                    None
                }
            }
        }
    }

    // Whether a name is the one at a place.
    fn is_at(&self, place: usize, name: &[u8]) -> bool
        ensures { result ≡ is_at self.now place name.now }
    {
        match self.entries.get(place) {
            None => false,
            Some(entry) => name == entry.0.as_slice(),
        }
    }

    /// What stands beside a name.
    pub fn get(&self, name: &[u8]) -> Option<&V>
        ensures { option_copied result ≡ looked_up self.now name.now }
    {
        match self.place(name) {
            None => None,
            Some(place) => self.value_at(place),
        }
    }

    // What stands beside the name at a place.
    fn value_at(&self, place: usize) -> Option<&V>
        ensures { option_copied result ≡ value_at self.now place }
    {
        match self.entries.get(place) {
            None => None,
            Some(entry) => Some(&entry.1),
        }
    }

    /// Whether a name is there.
    pub fn contains(&self, name: &[u8]) -> bool
        ensures { result ≡ is_some (looked_up self.now name.now) }
    {
        self.place(name).is_some()
    }

    /// One more name with its value, unless the name is there: then what stands beside it stays. `AllocError`: it wasn't
    /// there, and there was no memory for it; the table is as before.
    pub fn declare(&mut self, alloc: Global, name: &[u8], value: V) -> Result<(), AllocError>
        ensures ok { OnOk result (self.new ≡ declared self.old name.now value) }
        ensures err { OnErr result (self.new ≡ self.old) }
        ensures unseen { OnErr result (is_some (looked_up self.old name.now) ≡ false) }
    {
        if self.contains(name) {
            return Ok(());
        }
        let key = Vec::from_slice(alloc, name)?;
        let copy = Vec::from_slice(alloc, name)?;
        let place = self.entries.len();
        self.places.insert(copy, place)?;
        self.entries.push((key, value))?;
        Ok(())
    }

    /// Keeps the first names, so many of them. Takes no memory.
    pub fn truncate(&mut self, len: usize)
        ensures { self.new ≡ take len self.old }
    {
        self.entries.truncate(len);
    }
}
