//! What a word holds at a load.
ghost use Rattle.std.specs.Prelude.{◌≡◌, ◌≤◌, ◌<◌, [], length, take, drop, slice_index, slice_index_or};
ghost use Rattle.std.specs.List.{All};
ghost use Rattle.td_sched.specs.declared.store.PlannedStore.{PlannedStore};
ghost use Rattle.td_sched.specs.Plan.{last_value, to_word};
ghost use Rattle.td_sched.specs.Invariant.{IsByWord, NeverFalls, due};

use crate::store::PlannedStore;

/// What a word holds, and the place of the first store that may be to a later word, or to this one at a later load.
#[derive(Clone, Copy)]
pub struct Held {
    pub value: u64,
    pub next: usize,
}

// The place from this one on of the first store to word i or to a later one.
fn first_store_to(stores: &[PlannedStore], from: usize, i: u32) -> usize
    requires { from ≤ length stores.now }
    ensures reached { result ≤ length stores.now }
    ensures before { All (λ s. s.word < i) (take from stores.now) → All (λ s. s.word < i) (take result stores.now) }
    ensures stop { (d : PlannedStore) → result < length stores.now → i ≤ (slice_index_or stores.now result d).word }
{
    let mut next = from;
    'stores: while next < stores.len() && stores[next].word < i {
        next += 1;
    }
    next
}

// What word i holds at the load of this number, where it opens with this value and no store before this place is to it.
fn value_after(opening: u64, stores: &[PlannedStore], from: usize, i: u32, number: u64) -> Held
    requires { from ≤ length stores.now }
    ensures began { from ≤ result.next }
    ensures reached { result.next ≤ length stores.now }
    ensures value { to_word i (take from stores.now) ≡ [] → result.value ≡ last_value opening (to_word i (take result.next stores.now)) }
    ensures passed { All (λ s. s.word ≤ i) (take from stores.now) → All (λ s. s.word ≤ i) (take result.next stores.now) }
    ensures due { All (λ s. s.word ≡ i → s.before ≤ number) (take from stores.now)
        → All (λ s. s.word ≡ i → s.before ≤ number) (take result.next stores.now) }
    ensures stop { (d : PlannedStore) → result.next < length stores.now → (slice_index_or stores.now result.next d).word ≡ i
        → number < (slice_index_or stores.now result.next d).before }
{
    let mut value = opening;
    let mut next = from;
    'stores: while next < stores.len() && stores[next].word == i && stores[next].before <= number {
        value = stores[next].value;
        next += 1;
    }
    Held { value, next }
}

/// What word i holds at the load of this number, where the stores stand by rising word and those before this place are to
/// earlier words: the value of the last store to it with a number of at most that, and without one the opening value.
pub fn word_at(words: &[u64], stores: &[PlannedStore], from: usize, i: u32, number: u64) -> Held
    requires within { i < length words.now }
    requires began { from ≤ length stores.now }
    ensures reached { result.next ≤ length stores.now }
    ensures value { IsByWord stores.now → All (λ s. s.word < i) (take from stores.now)
        → result.value ≡ last_value (slice_index words.now i) (due number (to_word i stores.now)) }
    ensures passed { All (λ s. s.word < i) (take from stores.now) → All (λ s. s.word ≤ i) (take result.next stores.now) }
{
    let first = first_store_to(stores, from, i);
    value_after(words[i as usize], stores, first, i, number)
}
