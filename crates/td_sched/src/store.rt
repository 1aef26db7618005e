//! One store of a plan.

/// A store that others make right before the load of this number: loads are counted from 0, words too, and the word
/// gets this value. A number that no load has never comes.
#[derive(Clone, Copy, PartialEq, Eq)]
pub struct PlannedStore {
    pub before: u64,
    pub word: u32,
    pub value: u64,
}
