//! Words whose loads are written down for a C program.

ghost use Rattle.std.specs.Prelude.{◌≡◌, ◌≤◌, [], slice_set};
ghost use Rattle.td_stream.specs.Layouts.{count_in};
ghost use Rattle.td_foreign.specs.Noted.{IsNoted};

use td_stream::layout::Layout;
use td_stream::words::Words;

/// A load of the memory: the stretch of the message, from 0, the word of the memory, and what the load gave.
#[repr(C)]
#[derive(Clone, Copy)]
pub struct TdLoad {
    pub stretch: u32,
    pub word: u32,
    pub value: u64,
}

/// The words of a message that lies so, of which each load is written into rows, as far as there is room; no other row is touched.
#[derive(Drop)]
pub struct NotedWords<'a, W: Words> {
    words: &'a mut W,
    layout: &'a Layout,
    // The stretch of the word that was loaded last, from which the next one's is looked for.
    near: u32,
    // How many loads were made.
    count: u64,
    rows: &'a mut [TdLoad],
    pub ghost size: { W.size words.now ≤ count_in layout.now },
}

// Writes a row at this place, where there is room for it.
fn put_row(rows: &mut [TdLoad], place: u64, row: TdLoad)
    ensures { rows.new ≡ slice_set rows.old place row }
{
    if place < rows.len() as u64 {
        rows[place as usize] = row;
    }
}

impl<'a, W: Words> NotedWords<'a, W> {
    /// Over words of which none was loaded.
    pub fn over(words: &'a mut W, layout: &'a Layout, rows: &'a mut [TdLoad]) -> NotedWords<'a, W>
        requires size { W.size words.old ≤ count_in layout.now }
        requires fresh { W.loads words.old ≡ [] }
        ensures words { result.words.now ≡ words.old }
        ensures same_words { result.words.ghost_name ≡ words.entry.ghost_name }
        ensures layout { result.layout.now ≡ layout.now }
        ensures same_rows { result.rows.ghost_name ≡ rows.entry.ghost_name }
        ensures noted { IsNoted layout.now [] rows.old result.count result.rows.now }
    {
        NotedWords {
            words,
            layout,
            near: 0,
            count: 0,
            rows,
        }
    }

    /// How many loads were noted.
    pub fn load_count(&self) -> u64
        ensures { result ≡ self.now.count }
    {
        self.count
    }
}

impl<'a, W: Words> Words for NotedWords<'a, W> {
    ghost use Rattle.std.proofs.Common.{List, refl, ◌∙◌};
    ghost use Rattle.td_foreign.specs.declared.noted.TdLoad.{TdLoad};
    ghost use Rattle.td_foreign.specs.Noted.{Noting, IsNoted};

    ghost loads = { λ n. W.loads n.words.now };

    ghost size = { λ n. W.size n.words.now };

    // What was noted before goes on to be.
    ghost reaches = { λ v w. Noting W.reaches
        (v.words.ghost_name, v.rows.ghost_name, v.layout.now, v.words.now)
        (w.words.ghost_name, w.rows.ghost_name, w.layout.now, w.words.now)
        × ((was : List TdLoad) → IsNoted v.layout.now (W.loads v.words.now) was v.count v.rows.now → IsNoted w.layout.now (W.loads w.words.now) was w.count w.rows.now) };

    ghost reaches_itself = { λ w. ((refl, refl, refl, W.reaches_itself w.words.now), λ was h. h) };

    ghost reaches_on = { λ u v w p q. (
      (q.0.0 ∙ p.0.0, q.0.1 ∙ p.0.1, q.0.2 ∙ p.0.2, W.reaches_on u.words.now v.words.now w.words.now p.0.3 q.0.3),
      λ was h. q.1 was (p.1 was h),
    ) };

    ghost same_size = { λ v w p. W.same_size v.words.now w.words.now p.0.3 };

    fn count(&self) -> u32 {
        self.words.count()
    }

    fn load(&mut self, i: u32) -> u64 {
        let (stretch, word) = self.layout.word_from(self.near, i);
        let value = self.words.load(i);
        let row = TdLoad {
            stretch,
            word,
            value,
        };
        put_row(self.rows, self.count, row);
        self.near = stretch;
        self.count = self.count.wrapping_add(1);
        value
    }
}
