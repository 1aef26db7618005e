//! Words that others may store to at any time, with a list of the loads that were made of them.

ghost use Rattle.std.specs.Prelude.{◌≡◌, ◌+◌, ◌<◌, ◌≤◌, ◌^◌, [], length, IfOk};

use std::alloc::{AllocError, Global};
use std::snapshot::Snapshot;
use std::sync::atomic::{AtomicU64, Ordering};
use td_stream::load::Load;
use td_stream::loads::Loads;
use td_stream::words::Words;

/// A word of 64 bits that threads share. With what it began is known, in proofs alone (a snapshot has no bytes); of what it holds nothing is.
#[derive(Drop)]
pub struct SharedWord {
    word: AtomicU64,
    pub first: Snapshot<u64>,
}

impl SharedWord {
    /// A word that begins with this value.
    pub fn new(value: u64) -> SharedWord
        ensures { result.first.value ≡ value }
    {
        SharedWord {
            word: AtomicU64::new(value),
            first: Snapshot::of(&value),
        }
    }
}

/// Words of 64 bits that threads share, and the loads of one validation. Nothing is known of what a word holds.
#[derive(Drop)]
pub struct SharedWords<'a> {
    pub words: &'a [SharedWord],
    pub loads: Loads,
    pub ghost few: { length words.now < 2 ^ 32 },
    // A load takes no memory: there is room for one of each word.
    pub ghost room: { length words.now ≤ length loads.list + loads.room },
}

impl<'a> SharedWords<'a> {
    /// These words, none of them loaded yet. `AllocError`: there was no memory for the list of loads.
    pub fn over(alloc: Global, words: &'a [SharedWord]) -> Result<SharedWords<'a>, AllocError>
        requires { length words.now < 2 ^ 32 }
        ensures words { IfOk result (λ made. made.words.now ≡ words.now) }
        ensures fresh { IfOk result (λ made. made.loads.list ≡ []) }
    {
        let loads = Loads::with_room(alloc, words.len() as u32)?;
        Ok(SharedWords { words, loads })
    }
}

impl<'a> Words for SharedWords<'a> {
    ghost use Rattle.std.specs.Prelude.{◌≡◌, length, refl};
    ghost use Rattle.td_use_image.specs.Answers.{same_on};

    ghost loads = { λ w. w.loads.list };

    ghost size = { λ w. length w.words.now };

    ghost reaches = { λ v w. length w.words.now ≡ length v.words.now };

    ghost reaches_itself = { λ w. refl };

    ghost reaches_on = { λ u v w. same_on (length u.words.now) (length v.words.now) (length w.words.now) };

    ghost same_size = { λ v w p. p };

    fn count(&self) -> u32 {
        self.words.len() as u32
    }

    fn load(&mut self, i: u32) -> u64 {
        let value = self.words[i as usize].word.load(Ordering::SeqCst);
        self.loads.push(Load { word: i, value });
        value
    }
}
