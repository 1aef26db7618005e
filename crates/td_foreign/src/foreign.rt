//! A message in memory of C.

ghost use Rattle.std.specs.Prelude.{◌≡◌, [], Some};
ghost use Rattle.td_stream.specs.Layouts.{AreWithin};
ghost use Rattle.td_stream.specs.Loads.{buffered};

use crate::memory::TdWords;
use std::mem;
use td_stream::layout::Layout;
use td_stream::load::Load;
use td_stream::made::Made;
use td_stream::words::Words;

/// The words of a message that lies so in memory of C.
#[derive(Drop)]
pub struct ForeignWords<'a> {
    words: TdWords,
    layout: &'a Layout,
    // The stretch of the word that was loaded last, from which the next one's is looked for.
    near: u32,
    // The loads made so far, by their message words; the list has no bytes.
    made: Made,
    pub ghost inside: { AreWithin words.count layout.now },
    pub ghost loaded: { words.made ≡ buffered (Some layout.now) made },
}

impl<'a> ForeignWords<'a> {
    /// The words of a message, of which none was loaded yet.
    pub fn over(words: TdWords, layout: &'a Layout) -> ForeignWords<'a>
        requires inside { AreWithin words.count layout.now }
        requires fresh { words.made ≡ [] }
        ensures words { result.words ≡ words }
        ensures layout { result.layout.now ≡ layout.now }
        ensures fresh { result.made ≡ [] }
    {
        ForeignWords {
            words,
            layout,
            near: 0,
            made: Made::new(),
        }
    }

    /// The words of the memory, and the loads made: of each word that stands in the memory's list of loads, by its message word.
    pub fn end(self) -> (TdWords, Made)
        ensures count { result.0.count ≡ self.entry.words.count }
        ensures loaded { result.0.made ≡ buffered (Some self.entry.layout.now) result.1 }
        ensures made { result.1 ≡ self.entry.made }
    {
        let ForeignWords {
            words,
            layout: _,
            near: _,
            made,
        } = self;
        (words, made)
    }
}

impl<'a> Words for ForeignWords<'a> {
    ghost use Rattle.std.proofs.Common.{ap, refl, ◌∙◌};
    ghost use Rattle.td_stream.specs.Layouts.{count_in};

    ghost loads = { λ w. w.made };

    ghost size = { λ w. count_in w.layout.now };

    ghost reaches = { λ v w. (w.words.count ≡ v.words.count) × (w.layout.now ≡ v.layout.now) };

    ghost reaches_itself = { λ w. (refl, refl) };

    ghost reaches_on = { λ u v w p q. (q.0 ∙ p.0, q.1 ∙ p.1) };

    ghost same_size = { λ v w p. ap count_in p.1 };

    fn count(&self) -> u32 {
        self.layout.count()
    }

    fn load(&mut self, i: u32) -> u64 {
        let (near, word) = self.layout.word_from(self.near, i);
        self.near = near;
        let words = mem::replace(&mut self.words, TdWords::none());
        let (words, value) = unsafe { words.load(word as usize) };
        self.words = words;
        self.made.push(Load { word: i, value });
        value
    }
}
