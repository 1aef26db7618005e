//! A message in pieces, each of which has words of its own.

ghost use Rattle.std.specs.Prelude.{◌≡◌, ◌<◌, [], length};
ghost use Rattle.td_foreign.specs.Pieces.{AreFresh, AreWhole, IsLoad, count_at, layout_of};

use crate::memory::TdWords;
use std::mem;
use td_stream::layout::Layout;
use td_stream::load::Load;
use td_stream::made::Made;
use td_stream::words::Words;

/// Bytes of a message: so many from a byte of these words on. `count` is how many words they are, where the words' own count can't be read.
#[repr(C)]
#[derive(Drop)]
pub struct TdPiece {
    pub words: TdWords,
    pub count: usize,
    pub place: u32,
    pub size: u32,
}

// One atomic load of word i of piece k.
fn load_of(pieces: &mut [TdPiece], k: usize, i: usize) -> u64
    requires piece { k < length pieces.old }
    requires word { i < count_at pieces.old k }
    ensures { IsLoad pieces.old pieces.new k i result }
{
    let words = mem::replace(&mut pieces[k].words, TdWords::none());
    let (words, value) = unsafe { words.load(i) };
    pieces[k].words = words;
    value
}

/// The words of a message that is these pieces, one after the other, with the loads made so far by their message words.
#[derive(Drop)]
pub struct PieceWords<'a> {
    pieces: &'a mut [TdPiece],
    layout: &'a Layout,
    // The piece of the word that was loaded last, from which the next one's is looked for.
    near: u32,
    // A list that has no bytes.
    made: &'a mut Made,
    pub ghost whole: { AreWhole pieces.now },
    pub ghost laid: { layout.now ≡ layout_of pieces.now },
}

impl<'a> PieceWords<'a> {
    /// The words of a message, of which none was loaded yet.
    pub fn over(pieces: &'a mut [TdPiece], layout: &'a Layout, made: &'a mut Made) -> PieceWords<'a>
        requires whole { AreWhole pieces.old }
        requires laid { layout.now ≡ layout_of pieces.old }
        requires fresh { AreFresh pieces.old }
        requires none { made.old ≡ [] }
        ensures same_pieces { result.pieces.ghost_name ≡ pieces.entry.ghost_name }
        ensures same_made { result.made.ghost_name ≡ made.entry.ghost_name }
        ensures layout { result.layout.now ≡ layout.now }
        ensures pieces { result.pieces.now ≡ pieces.old }
        ensures made { result.made.now ≡ [] }
    {
        PieceWords {
            pieces,
            layout,
            near: 0,
            made,
        }
    }
}

impl<'a> Words for PieceWords<'a> {
    ghost use Rattle.std.proofs.Common.{ap, refl, ◌∙◌};
    ghost use Rattle.td_stream.specs.Layouts.{count_in};
    ghost use Rattle.td_foreign.specs.Pieces.{AreLoaded, SameShapes};

    ghost loads = { λ w. w.made.now };

    ghost size = { λ w. count_in w.layout.now };

    // Where the pieces' loads were those that are told, they go on to be.
    ghost reaches = { λ v w. (w.pieces.ghost_name ≡ v.pieces.ghost_name) × (w.made.ghost_name ≡ v.made.ghost_name) × (w.layout.now ≡ v.layout.now)
        × SameShapes v.pieces.now w.pieces.now × (AreLoaded v.pieces.now v.made.now → AreLoaded w.pieces.now w.made.now) };

    ghost reaches_itself = { λ w. (refl, refl, refl, refl, λ h. h) };

    ghost reaches_on = { λ u v w p q. (q.0 ∙ p.0, q.1 ∙ p.1, q.2 ∙ p.2, q.3 ∙ p.3, λ h. q.4 (p.4 h)) };

    ghost same_size = { λ v w p. ap count_in p.2 };

    fn count(&self) -> u32 {
        self.layout.count()
    }

    fn load(&mut self, i: u32) -> u64 {
        let (near, word) = self.layout.word_from(self.near, i);
        let value = load_of(self.pieces, near as usize, word as usize);
        self.near = near;
        self.made.push(Load { word: i, value });
        value
    }
}
