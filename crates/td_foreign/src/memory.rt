//! The words of a message, as C hands them over.

ghost use Rattle.std.specs.Prelude.{◌≡◌, ◌<◌, List, [], ◌∷◌, ◌++◌, length};
ghost use Rattle.td_stream.specs.declared.load.Load.{Load};
ghost use Rattle.td_foreign.specs.Memory.{words_own, loads_coded};

use std::marker::Model;
use std::sync::atomic::{AtomicU64, Ordering};
use std::{ptr, slice};

/// `count` words of 64 bits from `at` on, to which others may store. Whoever hands them over says that as long as the call
/// runs nobody reaches these words but by atomic loads and stores. `made` are the loads made so far, each by its word of the
/// memory.
#[repr(C)]
#[derive(Drop)]
pub struct TdWords {
    at: *const u64,
    pub count: usize,
    pub ghost made: { List Load } by { loads_coded },
}

impl Model for TdWords {
    ghost also_owns = { λ w. words_own w.at w.count };
}

fn load_at(words: &[AtomicU64], i: usize) -> u64
    requires { i < length words.now }
{
    words[i].load(Ordering::SeqCst)
}

impl TdWords {
    /// No words.
    pub fn none() -> TdWords
        ensures { (result.count ≡ 0) × (result.made ≡ []) }
    {
        TdWords {
            at: ptr::null(),
            count: 0,
        }
    }

    /// One atomic load of word i, and the words again. Nothing else reaches the memory, so `made` are the loads made.
    pub(crate) unsafe fn load(self, i: usize) -> (TdWords, u64)
        requires { i < self.count }
        ensures { (result.0.count ≡ self.count) × (result.0.made ≡ self.made ++ (record { word = i; value = result.1 }) ∷ []) }
    {
        let TdWords { at, count } = self;
        let words = slice::from_raw_parts(at as *const AtomicU64, count);
        let value = load_at(words, i);
        (TdWords { at, count }, value)
    }
}
