//! The words of a descriptor.

ghost use Rattle.std.specs.Prelude.{◌≡◌, ◌+◌, ◌^◌, ◌<◌, ◌≤◌, [], ◌∷◌};
ghost use Rattle.td_descr.specs.Imports.{Load};
ghost use Rattle.td_descr.specs.Words.{load_of, raised};

use crate::loads::DescLoads;
use td_stream::load::Load;
use td_stream::words::Words;

/// The two words of a descriptor among the words of its ring, of which word 0 alone was loaded before. They are numbered from 0.
#[derive(Drop)]
pub struct DescWords<'a, W: Words> {
    words: &'a mut W,
    // What word 0 of the ring gave.
    head: u64,
    // The ring's word that is the descriptor's first.
    base: u32,
    loads: DescLoads,
    pub ghost later: { 0 < base },
    pub ghost small: { base + 2 < 2 ^ 32 },
    pub ghost room: { base + 2 ≤ W.size words.now },
    pub ghost same: { W.loads words.now ≡ load_of 0 head ∷ raised base loads },
}

impl<'a, W: Words> DescWords<'a, W> {
    /// The ring's words `base` and `base + 1`, after word 0 gave `head`.
    pub fn over(words: &'a mut W, head: u64, base: u32) -> DescWords<'a, W>
        requires later { 0 < base }
        requires small { base + 2 < 2 ^ 32 }
        requires room { base + 2 ≤ W.size words.old }
        requires loaded { W.loads words.old ≡ load_of 0 head ∷ [] }
        ensures same_words { result.words.ghost_name ≡ words.entry.ghost_name }
        ensures words { result.words.now ≡ words.old }
        ensures head { result.head ≡ head }
        ensures base { result.base ≡ base }
        ensures fresh { result.loads ≡ [] }
    {
        DescWords {
            words,
            head,
            base,
            loads: DescLoads::none(),
        }
    }

    /// The loads that were made of them. Gives the ring's words back, as they are now.
    pub fn end(self) -> DescLoads
        ensures words { self.exit.0.now ≡ self.entry.words.now }
        ensures loads { result ≡ self.entry.loads }
    {
        let DescWords {
            words: _,
            head: _,
            base: _,
            loads,
        } = self;
        loads
    }
}

impl<'a, W: Words> Words for DescWords<'a, W> {
    ghost use Rattle.std.specs.Prelude.{refl};
    ghost use Rattle.std.proofs.Common.{◌∙◌};
    ghost use Rattle.td_descr.specs.Words.{Moved};

    ghost loads = { λ d. d.loads };

    ghost size = { λ d. 2 };

    ghost reaches = { λ v w. Moved W.reaches
        (v.words.ghost_name, v.head, v.base, v.words.now)
        (w.words.ghost_name, w.head, w.base, w.words.now) };

    ghost reaches_itself = { λ w. (refl, refl, refl, W.reaches_itself w.words.now) };

    ghost reaches_on = { λ u v w p q. (q.0 ∙ p.0, q.1 ∙ p.1, q.2 ∙ p.2, W.reaches_on u.words.now v.words.now w.words.now p.3 q.3) };

    ghost same_size = { λ v w p. refl };

    fn count(&self) -> u32 {
        2
    }

    fn load(&mut self, i: u32) -> u64 {
        let value = self.words.load(self.base + i);
        self.loads.push(Load { word: i, value });
        value
    }
}
