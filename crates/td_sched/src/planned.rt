//! Plain memory to which others store by a plan.
ghost use Rattle.std.specs.Prelude.{◌≡◌, ℕ, ◌+◌, ◌<◌, ◌≤◌, ◌^◌, List, [], Some, None, length, take, option_map, IfOk, IsOk, OnOk};
ghost use Rattle.std.specs.List.{All};
ghost use Rattle.td_stream.specs.Layouts.{buffer_word_of, loadable, AreWithin, IsOver};
ghost use Rattle.td_sched.specs.declared.store.PlannedStore.{PlannedStore};
ghost use Rattle.td_sched.specs.Plan.{numbered, to_word};
ghost use Rattle.td_sched.specs.Invariant.{NeverFalls};

use crate::held::word_at;
use crate::store::PlannedStore;
use std::alloc::{AllocError, Global};
use std::marker::Model;
use std::snapshot::Snapshot;
use td_stream::layout::{Layout, word_count};
use td_stream::load::Load;
use td_stream::words::Words;

/// Words of 64 bits to which the stores of a plan are made, each right before its load. The words themselves are lent and stay
/// as they are: what a word holds is looked up among the stores to it. A contract sees the opening words, the stores as they
/// were given, how the message lies in the words, and the loads made so far.
#[derive(Drop)]
pub struct Planned<'a> {
    words: &'a [u64],
    given: Snapshot<Vec<PlannedStore>>,
    /// The stores by rising word, those to one word by rising number, those of one number in the order in which they were given.
    stores: Vec<PlannedStore>,
    /// How the message lies in the words; without it a load's number is that of its word.
    layout: Option<&'a Layout>,
    /// The stretch of the word that was loaded last, from which the next one's is looked for.
    near: u32,
    /// The place of the first of them that isn't to a word before `ahead`, or an earlier one.
    next: usize,
    ahead: u32,
    /// With room for one load of each message word, so that a load takes no memory.
    loads: Vec<Load>,
}

impl<'a> Model for Planned<'a> {
    ghost use Rattle.std.specs.Prelude.{vec_capacity, option_map};
    ghost use Rattle.td_sched.specs.View.{PlannedView};
    ghost use Rattle.td_sched.specs.Invariant.{PlannedInvariant};

    ghost Value = { PlannedView };

    ghost view = { λ p.
        record { opening = p.words.now; stores = p.given.value.items; layout = option_map (λ l. l.now) p.layout; loads = p.loads.items } };

    ghost invariant = { λ p. PlannedInvariant p.words.now p.given.value.items
        p.stores.items (option_map (λ l. l.now) p.layout) p.next p.ahead (vec_capacity p.loads) };
}

// A vector of the same elements. `AllocError`: there was no memory for it; never where there are no elements.
fn copied<T: Copy>(alloc: Global, elements: &[T]) -> Result<Vec<T>, AllocError>
    ensures ok { IfOk result (λ vector. vector.items ≡ elements.now) }
    ensures memory { elements.now ≡ [] → IsOk result }
{
    if elements.is_empty() {
        return Ok(Vec::new(alloc));
    }
    Vec::from_slice(alloc, elements)
}

// Sorts stores by number; those of one number keep their order. `AllocError`: there was no memory for it; never for up to
// twenty stores.
fn sort_by_number(stores: &mut Vec<PlannedStore>) -> Result<(), AllocError>
    ensures order { OnOk result (NeverFalls (λ s. s.before) stores.new.items) }
    ensures each { (n : ℕ) → numbered n stores.new.items ≡ numbered n stores.old.items }
    ensures count { length stores.new.items ≡ length stores.old.items }
    ensures memory { length stores.old.items ≤ 20 → IsOk result }
{
    stores.sort_by_key(|store| store.before)?;
    Ok(())
}

// Sorts stores by word; those to one word keep their order. `AllocError`: there was no memory for it; never for up to twenty
// stores.
fn sort_by_word(stores: &mut Vec<PlannedStore>) -> Result<(), AllocError>
    ensures order { OnOk result (NeverFalls (λ s. s.word) stores.new.items) }
    ensures each { (i : ℕ) → to_word i stores.new.items ≡ to_word i stores.old.items }
    ensures count { length stores.new.items ≡ length stores.old.items }
    ensures memory { length stores.old.items ≤ 20 → IsOk result }
{
    stores.sort_by_key(|store| store.word)?;
    Ok(())
}

// The stretch, looked for from one that was near, and the word of the buffer that a number names.
fn word_named(layout: Option<&Layout>, near: u32, number: u32) -> (u32, u32)
    requires { number < loadable (option_map (λ l. l.now) layout) (number + 1) }
    ensures { result.1 ≡ buffer_word_of (option_map (λ l. l.now) layout.entry) number }
{
    match layout {
        None => (near, number),
        Some(layout) => layout.word_from(near, number),
    }
}

// A place of the stores before which all are to words before this one, where those before `next` are to words before `ahead`.
fn first_for(next: usize, ahead: u32, word: u32) -> usize
    ensures reached { result ≤ next }
    ensures early { (stores : List PlannedStore) → All (λ s. s.word < ahead) (take next stores) → All (λ s. s.word < word) (take result stores) }
{
    if word < ahead {
        return 0;
    }
    next
}

impl<'a> Planned<'a> {
    /// Memory that opens with these words, of which there are fewer than 2^32, and to which these stores are made as
    /// loads come: by rising number, and within one number in the order given here. A store to a word that isn't
    /// there changes nothing. The words aren't copied. `AllocError`: there was no memory for this; never where there are neither
    /// words nor stores.
    ///
    /// A load of a word that opens with 5, and to which 7 is stored before the first load, which gives 7:
    ///
    /// ```
    /// use std::alloc::{AllocError, Global};
    /// use td_sched::{Planned, PlannedStore};
    /// use td_stream::Words;
    ///
    /// fn loaded(alloc: Global) -> Result<u64, AllocError> {
    ///     let store = PlannedStore { before: 0, word: 0, value: 7 };
    ///     let mut words = Planned::open(alloc, &[5], &[store])?;
    ///     Ok(words.load(0))
    /// }
    /// ```
    pub fn open(
        alloc: Global,
        words: &'a [u64],
        stores: &[PlannedStore],
    ) -> Result<Planned<'a>, AllocError>
        requires { length words.now < 2 ^ 32 }
        ensures opening { IfOk result (λ p. p.opening ≡ words.now) }
        ensures stores { IfOk result (λ p. p.stores ≡ stores.now) }
        ensures layout { IfOk result (λ p. p.layout ≡ None) }
        ensures loads { IfOk result (λ p. p.loads ≡ []) }
        ensures memory { words.now ≡ [] → stores.now ≡ [] → IsOk result }
    {
        Planned::open_by(alloc, words, stores, None)
    }

    /// The same, of a message that lies so in the words: a load's number is that of a message word.
    pub fn open_over(
        alloc: Global,
        words: &'a [u64],
        stores: &[PlannedStore],
        layout: &'a Layout,
    ) -> Result<Planned<'a>, AllocError>
        requires short { length words.now < 2 ^ 32 }
        requires within { AreWithin (length words.now) layout.now }
        ensures opening { IfOk result (λ p. p.opening ≡ words.now) }
        ensures stores { IfOk result (λ p. p.stores ≡ stores.now) }
        ensures layout { IfOk result (λ p. p.layout ≡ Some layout.now) }
        ensures loads { IfOk result (λ p. p.loads ≡ []) }
    {
        Planned::open_by(alloc, words, stores, Some(layout))
    }

    // Memory with a layout or without one.
    fn open_by(
        alloc: Global,
        words: &'a [u64],
        stores: &[PlannedStore],
        layout: Option<&'a Layout>,
    ) -> Result<Planned<'a>, AllocError>
        requires short { length words.now < 2 ^ 32 }
        requires over { IsOver (length words.now) (option_map (λ l. l.now) layout) }
        ensures opening { IfOk result (λ p. p.opening ≡ words.now) }
        ensures stores { IfOk result (λ p. p.stores ≡ stores.now) }
        ensures layout { IfOk result (λ p. p.layout ≡ option_map (λ l. l.now) layout.entry) }
        ensures loads { IfOk result (λ p. p.loads ≡ []) }
        ensures memory { words.now ≡ [] → stores.now ≡ [] → option_map (λ l. l.now) layout.entry ≡ None → IsOk result }
    {
        let mut stores = copied(alloc, stores)?;
        let given = Snapshot::of(&stores);
        sort_by_number(&mut stores)?;
        sort_by_word(&mut stores)?;
        let count = word_count(layout, words.len() as u32);
        let loads = Vec::with_capacity(alloc, count as usize)?;
        Ok(Planned {
            words,
            given,
            stores,
            layout,
            near: 0,
            next: 0,
            ahead: 0,
            loads,
        })
    }
}

impl<'a> Words for Planned<'a> {
    ghost use Rattle.td_sched.specs.View.{PlannedReaches, reaches_itself, reaches_on, same_size, size_of};

    ghost loads = { λ p. p.loads };

    ghost size = { size_of };

    ghost reaches = { PlannedReaches };

    ghost reaches_itself = { reaches_itself };

    ghost reaches_on = { reaches_on };

    ghost same_size = { same_size };

    fn count(&self) -> u32 {
        word_count(self.layout, self.words.len() as u32)
    }

    fn load(&mut self, i: u32) -> u64 {
        let number = self.loads.len() as u64;
        let (near, word) = word_named(self.layout, self.near, i);
        let from = first_for(self.next, self.ahead, word);
        let held = word_at(self.words, self.stores.as_slice(), from, word, number);
        self.near = near;
        self.next = held.next;
        self.ahead = word + 1;
        self.loads.push_reserved(Load {
            word: i,
            value: held.value,
        });
        held.value
    }
}
