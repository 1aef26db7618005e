//! Runs in numbers, each parted from the next by one blank: the entry point, its arguments, its cells, how many bytes the message
//! has, its words, and the stores that others make to them. Before each list stands how many numbers it has. A store is three of
//! them: the number of the load right before which it is made, the word, and the value.

use std::alloc::{AllocError, Global};
use td_core::module::Entry;
use td_sched::store::PlannedStore;

/// A run. Its lists are lent. A store is the number of the load right before which it is made, the word, and the value.
#[derive(Drop)]
pub struct Run<'a> {
    pub entry: Entry,
    pub args: &'a [u64],
    pub cells: &'a [u64],
    pub length: u32,
    pub words: &'a [u64],
    pub stores: &'a [[u64; 3]],
}

/// The numbers of a text. None: it is something else. `AllocError`: there was no memory.
pub fn numbers_of(alloc: Global, text: &str) -> Result<Option<Vec<u64>>, AllocError> {
    let mut numbers = Vec::new(alloc);
    for word in text.split(' ') {
        let Ok(number) = word.parse::<u64>() else {
            return Ok(None);
        };
        numbers.push(number)?;
    }
    Ok(Some(numbers))
}

// A number below 2^32, and what follows it.
fn short_at(numbers: &[u64]) -> Option<(u32, &[u64])> {
    let (number, rest) = numbers.split_first()?;
    Some((u32::try_from(*number).ok()?, rest))
}

// A list behind its count, and what follows it.
fn list_at(numbers: &[u64]) -> Option<(&[u64], &[u64])> {
    let (count, rest) = numbers.split_first()?;
    rest.split_at_checked(*count as usize)
}

/// The run of these numbers. None: they aren't those of a run, as where the last list ends amid a store.
pub(crate) fn run_of(numbers: &[u64]) -> Option<Run<'_>> {
    let (number, rest) = short_at(numbers)?;
    let (args, rest) = list_at(rest)?;
    let (cells, rest) = list_at(rest)?;
    let (length, rest) = short_at(rest)?;
    let (words, rest) = list_at(rest)?;
    let (numbers, rest) = list_at(rest)?;
    let (stores, part) = numbers.as_chunks::<3>();
    if !part.is_empty() || !rest.is_empty() {
        return None;
    }
    Some(Run {
        entry: Entry { number },
        args,
        cells,
        length,
        words,
        stores,
    })
}

/// The plan of a run's stores. Words are fewer than 2^32, so a store to a word past all numbers of 32 bits is made to none, as
/// that to the last of these numbers is. `AllocError`: there was no memory.
pub fn stores_of(alloc: Global, triples: &[[u64; 3]]) -> Result<Vec<PlannedStore>, AllocError> {
    let mut stores = Vec::new(alloc);
    for triple in triples {
        let [before, word, value] = *triple;
        stores.push(PlannedStore {
            before,
            word: u32::try_from(word).unwrap_or(u32::MAX),
            value,
        })?;
    }
    Ok(stores)
}
