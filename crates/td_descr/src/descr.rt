//! Readers of rings.

ghost use Rattle.std.specs.Prelude.{◌≡◌, ℕ, ◌+◌, ◌*◌, ◌^◌, ◌<◌, ◌≤◌, [], ◌∷◌, IfOk};
ghost use Rattle.td_stream.specs.Loads.{IsRising};
ghost use Rattle.td_vm.specs.Frames.{IsArmed};
ghost use Rattle.td_descr.specs.Words.{load_of, raised};
ghost use Rattle.td_descr.specs.Ring.{IsRingCode, IsValidated, IfAccepted, CellsAreWithin, IsLook, LiesWithin, ring_words, begun, frame_outcome, standing as stands};

use crate::desc_words::DescWords;
use crate::loads::DescLoads;
use crate::next::{Look, Next, Standing};
use std::alloc::{AllocError, Global};
use std::marker::Model;
use td_core::module::Entry;
use td_core::outcome::Verdict;
use td_formats::desc_out;
use td_run::validation::validate_compiled;
use td_stream::laws::some_message_carries;
use td_stream::layout::Layout;
use td_stream::words::Words;
use td_verify::verify::Verified;
use td_vm::laws::fitting_cells_have_room;
use td_vm::validate::Frame;

/// A reader of a ring: the code of descriptors, how many entries the ring has, the bytes of the buffer and of a message at most, how
/// many descriptors were taken, and the room for their validations.
#[derive(Drop)]
pub struct Descr {
    ring: Verified,
    entries: u32,
    room: u32,
    most: u32,
    taken: u64,
    frame: Frame,
    last: Look,
}

impl Model for Descr {
    ghost use Rattle.td_descr.specs.Ring.{ReaderView, IsReader};

    ghost Value = { ReaderView };

    ghost view = { λ d. record { code = d.ring; entries = d.entries; room = d.room; most = d.most; taken = d.taken; frame = d.frame; last = d.last } };

    ghost invariant = { λ d. IsReader (record { code = d.ring; entries = d.entries; room = d.room; most = d.most; taken = d.taken; frame = d.frame; last = d.last }) };
}

/// How the count that was made stands to what was taken.
fn standing(entries: u32, taken: u64, made: u64) -> Standing
    ensures standing { result ≡ stands entries taken made }
    ensures ahead { result ≡ Standing.Waiting → taken < made }
{
    if made == taken {
        return Standing::Nothing;
    }
    if made < taken {
        return Standing::Lost;
    }
    if made - taken > entries as u64 {
        return Standing::Lost;
    }
    Standing::Waiting
}

/// Validates the descriptor of which this is the first word, after the ring's word 0 gave `head`, and keeps its loads.
fn validate_desc<W: Words>(
    ring: &Verified,
    room: u32,
    most: u32,
    frame: &mut Frame,
    words: &mut W,
    head: u64,
    base: u32,
    loads: &mut DescLoads,
) -> Verdict
    requires code { IsRingCode ring.now room most }
    requires armed { IsArmed ring.now frame.old }
    requires later { 0 < base }
    requires small { base + 2 < 2 ^ 32 }
    requires words { base + 2 ≤ W.size words.old }
    requires loaded { W.loads words.old ≡ load_of 0 head ∷ [] }
    ensures reaches { W.reaches words.old words.new }
    ensures armed { IsArmed ring.now frame.new }
    ensures are { W.loads words.new ≡ load_of 0 head ∷ raised base loads.new }
    ensures validated { IsValidated ring.now room most loads.new (frame_outcome frame.new result) }
    ensures within { IfAccepted result (CellsAreWithin room most frame.new.cells) }
{
    fitting_cells_have_room();
    some_message_carries();
    let entry = Entry { number: 0 };
    let args = [room as u64, most as u64];
    let cells = [0, 0, 0];
    let layout = Layout::plain(16);
    frame.set_cells(&cells);
    let mut descriptor = DescWords::over(words, head, base);
    let verdict = validate_compiled(ring, entry, &args, &layout, frame, &mut descriptor);
    *loads = descriptor.end();
    verdict
}

impl Descr {
    /// A reader that took nothing yet, of a ring with so many entries, by the code of descriptors, for messages of at most `most` bytes in
    /// a buffer of `room` bytes. It takes all memory that its looks need. `AllocError`: there was no memory for it.
    pub fn arm(
        alloc: Global,
        ring: Verified,
        entries: u32,
        room: u32,
        most: u32,
    ) -> Result<Descr, AllocError>
        requires some { 0 < entries }
        requires code { IsRingCode ring room most }
        ensures { IfOk result (λ d. d ≡ begun ring entries room most d.frame) }
    {
        let frame = Frame::arm(alloc, &ring)?;
        Ok(Descr {
            ring,
            entries,
            room,
            most,
            taken: 0,
            frame,
            last: Look {
                head: 0,
                verdict: None,
                loads: DescLoads::none(),
            },
        })
    }

    /// The room of validations, as the last descriptor's left it: its cells, and the frames of its failure.
    pub fn frame(&self) -> &Frame
        ensures frame { result.now ≡ self.now.frame }
        ensures armed { IsArmed self.now.code self.now.frame }
    {
        &self.frame
    }

    /// What the last look rests on.
    pub fn last(&self) -> &Look
        ensures { result.now ≡ self.now.last }
    {
        &self.last
    }

    /// Looks at the ring once: loads its count, and where a descriptor waits, that one's words, each at most once and in rising order.
    /// The answer, and what becomes of the reader, are said by `IsLook` from these loads alone. How many were taken grows only where
    /// the ring's own count is greater, so at the type's end it stands still. It takes no memory and waits for nobody.
    pub fn next<W: Words>(&mut self, words: &mut W) -> Next
        requires room { ring_words self.old.entries ≤ W.size words.old }
        requires fresh { W.loads words.old ≡ [] }
        ensures reaches { W.reaches words.old words.new }
        ensures rising { IsRising (W.loads words.new) }
        ensures looked { IsLook self.old self.new (W.loads words.new) result }
        ensures within { LiesWithin self.old.room self.old.most result }
    {
        // That there are at most 2^32 - 1 words is what this call says.
        let _count = words.count();
        let made = words.load(0);
        self.last = Look {
            head: made,
            verdict: None,
            loads: DescLoads::none(),
        };
        match standing(self.entries, self.taken, made) {
            Standing::Nothing => Next::Idle { made },
            Standing::Lost => Next::Overrun { made },
            Standing::Waiting => {
                let number = self.taken;
                let entry = (number % self.entries as u64) as u32;
                self.taken = number + 1;
                let verdict = validate_desc(
                    &self.ring,
                    self.room,
                    self.most,
                    &mut self.frame,
                    words,
                    made,
                    1 + 2 * entry,
                    &mut self.last.loads,
                );
                self.last.verdict = Some(verdict);
                match verdict {
                    Verdict::Reject { reason, pos } => Next::Bad { reason, pos },
                    Verdict::Accept { pos: _ } => {
                        let out = desc_out(self.frame.cells());
                        Next::Message {
                            number,
                            place: out.place,
                            size: out.size,
                            id: out.id,
                        }
                    }
                }
            }
        }
    }
}
