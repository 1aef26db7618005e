//! A whole memory of C, as words that are loaded in any order.

ghost use Rattle.std.specs.Prelude.{◌≡◌};

use crate::memory::TdWords;
use std::mem;
use td_chain::memory::Memory;

/// All words of a memory of C, of which there are fewer than 2^32.
#[derive(Drop)]
pub struct ForeignMemory {
    words: TdWords,
    count: u32,
    pub ghost counted: { words.count ≡ count },
}

impl ForeignMemory {
    /// Over so many words.
    pub fn over(words: TdWords, count: u32) -> ForeignMemory
        requires { words.count ≡ count }
        ensures words { result.words ≡ words }
        ensures count { result.count ≡ count }
    {
        ForeignMemory { words, count }
    }

    /// The words, with the loads that were made.
    pub fn end(self) -> TdWords
        ensures { result ≡ self.words }
    {
        let ForeignMemory { words, count: _ } = self;
        words
    }
}

impl Memory for ForeignMemory {
    ghost use Rattle.std.proofs.Common.{refl, ◌∙◌};

    ghost loads = { λ w. w.words.made };

    ghost size = { λ w. w.count };

    ghost reaches = { λ v w. w.count ≡ v.count };

    ghost reaches_itself = { λ w. refl };

    ghost reaches_on = { λ u v w p q. q ∙ p };

    ghost same_size = { λ v w p. p };

    fn count(&self) -> u32 {
        self.count
    }

    fn load(&mut self, i: u32) -> u64 {
        let words = mem::replace(&mut self.words, TdWords::none());
        let (words, value) = unsafe { words.load(i as usize) };
        self.words = words;
        value
    }
}
