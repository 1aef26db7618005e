//! How a message lies in a buffer.

ghost use Rattle.std.specs.Prelude.{◌≡◌, ℕ, ◌+◌, ◌-◌, ◌/◌, ◌%◌, ◌*◌, ◌<◌, ◌≤◌, ◌^◌, [], ◌∷◌, length, option_map, IfOk, IsOk, OnErr, vec_capacity};
ghost use Rattle.td_stream.specs.Layouts.{length_in, count_in, word_at, offset_at, pair_at, words_in, plain, loadable};
ghost use Rattle.td_stream.specs.Parts.{IsPart, start_of, first_of};

use crate::stretch::Stretch;
use std::alloc::{AllocError, Global};
use std::marker::Model;

// A stretch: its place is byte `shift` of word `word` of the buffer. `start` and `end` are the places in the message at which it
// begins and ends, `first` is the number of its first message word and `after` the one after its last.
#[derive(Clone, Copy)]
struct Part {
    word: u32,
    shift: u32,
    start: u32,
    end: u32,
    first: u32,
    after: u32,
}

/// The most stretches of one buffer that a message has.
pub const MOST_STRETCHES: usize = 64;

/// The most stretches that a message has, each of a buffer of its own.
pub const MOST_PIECES: usize = 1024;

// One stretch has no list, so that the layout of a message in one piece takes no memory.
#[derive(Drop)]
enum Parts {
    One(Part),
    Many(Vec<Part>),
}

/// The stretches of a buffer that are a message, one after the other. A contract sees the list of them.
#[derive(Drop)]
pub struct Layout {
    parts: Parts,
    length: u32,
    count: u32,
}

impl Model for Layout {
    ghost use Rattle.std.specs.Prelude.{List};
    ghost use Rattle.td_stream.specs.declared.stretch.Stretch.{Stretch};
    ghost use Rattle.td_stream.specs.Parts.{layout_in, LayoutInvariant};

    ghost Value = { List Stretch };

    ghost view = { λ l. layout_in l.parts };

    ghost invariant = { λ l. LayoutInvariant l.parts l.length l.count };
}

/// Where a byte of a message is found.
#[derive(Clone, Copy)]
pub struct Found {
    /// The stretch.
    pub at: usize,
    /// The message word.
    pub number: u32,
    /// The place in the message of the first byte after this one that isn't in that word.
    pub until: u32,
    /// What is to be added to the place of a byte in that word, so that modulo 8 it is the byte of the word.
    pub skew: u32,
}

// The word of the buffer in which a place lies.
fn word_of(place: u32) -> u32
    ensures word { result ≡ place / 8 }
    ensures small { result < 2 ^ 29 }
{
    place / 8
}

// How many words hold a byte of so many that begin at byte `shift` of a word.
fn words_for(shift: u32, size: u32) -> u32
    requires { shift < 8 }
    ensures words { (w : ℕ) → result ≡ words_in (record { place = 8 * w + shift; size = size }) }
    ensures few { 8 * result ≤ size + 14 }
{
    if size == 0 {
        return 0;
    }
    ((shift as u64 + size as u64 + 7) / 8) as u32
}

impl Layout {
    // One stretch that begins at a byte of a word.
    fn single(word: u32, shift: u32, size: u32) -> Layout
        requires shift { shift < 8 }
        requires named { 8 * word + shift + size ≤ 2 ^ 35 }
        ensures { result ≡ (record { place = 8 * word + shift; size = size }) ∷ [] }
    {
        let count = words_for(shift, size);
        Layout {
            parts: Parts::One(Part {
                word,
                shift,
                start: 0,
                end: size,
                first: 0,
                after: count,
            }),
            length: size,
            count,
        }
    }

    /// One stretch. Takes no memory.
    pub fn one(place: u32, size: u32) -> Layout
        ensures { result ≡ (record { place = place; size = size }) ∷ [] }
    {
        Layout::single(place / 8, place % 8, size)
    }

    /// The first bytes of the buffer. Takes no memory.
    ///
    /// How many words hold a message of 41 bytes, which is 6:
    ///
    /// ```
    /// use td_stream::Layout;
    ///
    /// fn words_of_41() -> u32 {
    ///     Layout::plain(41).count()
    /// }
    /// ```
    pub fn plain(length: u32) -> Layout
        ensures layout { result ≡ plain length }
        ensures bytes { length_in result ≡ length }
        ensures count { count_in result ≡ (length + 7) / 8 }
    {
        Layout::one(0, length)
    }

    /// Bytes that begin at a word of the buffer, within the words that have a number. Takes no memory.
    ///
    /// A message in a slot of 2,048 bytes, which are 256 words, of a buffer of such slots:
    ///
    /// ```
    /// use td_stream::Layout;
    ///
    /// fn in_slot(slot: u16, length: u16) -> Layout {
    ///     Layout::words(256 * u32::from(slot), u32::from(length))
    /// }
    /// ```
    pub fn words(base: u32, length: u32) -> Layout
        requires { 8 * base + length ≤ 2 ^ 35 }
        ensures { result ≡ (record { place = 8 * base; size = length }) ∷ [] }
    {
        Layout::single(base, 0, length)
    }

    // These stretches, one after the other, in an empty list with room for them. Takes no memory.
    fn laid(room: Vec<Part>, stretches: &[Stretch]) -> Layout
        requires few { length stretches.now ≤ MOST_PIECES }
        requires short { length_in stretches.now < 2 ^ 32 }
        requires empty { room.items ≡ [] }
        requires room { length stretches.now ≤ vec_capacity room }
        ensures { result ≡ stretches.now }
    {
        let mut parts = room;
        let mut start = 0;
        let mut first = 0;
        let mut i = 0;
        'stretches: while i < stretches.len() {
            let stretch = stretches[i];
            let shift = stretch.place % 8;
            let end = start + stretch.size;
            let after = first + words_for(shift, stretch.size);
            parts.push_reserved(Part {
                word: word_of(stretch.place),
                shift,
                start,
                end,
                first,
                after,
            });
            start = end;
            first = after;
            i += 1;
        }
        Layout {
            parts: Parts::Many(parts),
            length: start,
            count: first,
        }
    }

    /// These stretches, one after the other: at most 64 of them, of fewer than 2^32 bytes in all. `AllocError`: there is a stretch, and
    /// there was no memory for the list.
    ///
    /// A message of 1,500 bytes: 20 of them begin at byte 64 of the buffer, the others at byte 4,099:
    ///
    /// ```
    /// use std::alloc::{AllocError, Global};
    /// use td_stream::{Layout, Stretch};
    ///
    /// fn in_two(alloc: Global) -> Result<Layout, AllocError> {
    ///     let head = Stretch { place: 64, size: 20 };
    ///     let body = Stretch { place: 4099, size: 1480 };
    ///     Layout::of(alloc, &[head, body])
    /// }
    /// ```
    pub fn of(alloc: Global, stretches: &[Stretch]) -> Result<Layout, AllocError>
        requires few { length stretches.now ≤ MOST_STRETCHES }
        requires short { length_in stretches.now < 2 ^ 32 }
        ensures ok { IfOk result (λ layout. layout ≡ stretches.now) }
        ensures memory { OnErr result (0 < length stretches.now) }
    {
        let room = Vec::with_capacity(alloc, stretches.len())?;
        Ok(Layout::laid(room, stretches))
    }

    // The list of a layout, emptied.
    fn emptied(self, alloc: Global) -> Vec<Part>
        ensures { result.items ≡ [] }
    {
        let Layout {
            parts,
            length: _,
            count: _,
        } = self;
        match parts {
            Parts::One(_) => Vec::new(alloc),
            Parts::Many(mut list) => {
                list.clear();
                list
            }
        }
    }

    /// These stretches in place of a layout's own, one after the other: at most 1,024 of them, of fewer than 2^32 bytes in all. The list is
    /// the layout's, which takes memory only if they are more than it had room for. `AllocError`: there was no memory for them.
    pub fn relaid(self, alloc: Global, stretches: &[Stretch]) -> Result<Layout, AllocError>
        requires few { length stretches.now ≤ MOST_PIECES }
        requires short { length_in stretches.now < 2 ^ 32 }
        ensures { IfOk result (λ layout. layout ≡ stretches.now) }
    {
        let mut room = self.emptied(alloc);
        room.try_reserve(stretches.len())?;
        Ok(Layout::laid(room, stretches))
    }

    /// How many bytes the message has.
    pub fn length(&self) -> u32
        ensures { result ≡ length_in self.now }
    {
        self.length
    }

    /// How many words the message has.
    pub fn count(&self) -> u32
        ensures { result ≡ count_in self.now }
    {
        self.count
    }

    // One of the stretches.
    fn part(&self, k: usize) -> Part
        requires { k < length self.now }
        ensures { IsPart self.now k result }
    {
        match &self.parts {
            Parts::One(part) => *part,
            Parts::Many(parts) => parts[k],
        }
    }

    // How many stretches there are.
    fn size(&self) -> usize
        ensures { result ≡ length self.now }
    {
        match &self.parts {
            Parts::One(_) => 1,
            Parts::Many(parts) => parts.len(),
        }
    }

    // The stretch from which a message word is looked for: this one, where the word is none of those before, else the first.
    fn nearest(&self, hint: usize, number: u32) -> usize
        requires { number < count_in self.now }
        ensures inside { result < length self.now }
        ensures begun { first_of self.now result ≤ number }
    {
        if hint < self.size() && self.part(hint).first <= number {
            hint
        } else {
            0
        }
    }

    /// The message word of this number: its stretch, from 0, and its word of the buffer.
    pub fn word(&self, number: u32) -> (u32, u32)
        requires { number < count_in self.now }
        ensures stretch { result.0 ≡ (pair_at self.now number).0 }
        ensures word { result.1 ≡ (pair_at self.now number).1 }
    {
        self.word_from(0, number)
    }

    /// The same, found the sooner, the nearer this stretch is before that of the word.
    pub fn word_from(&self, hint: u32, number: u32) -> (u32, u32)
        requires { number < count_in self.now }
        ensures stretch { result.0 ≡ (pair_at self.now number).0 }
        ensures word { result.1 ≡ (pair_at self.now number).1 }
    {
        match &self.parts {
            Parts::One(part) => (0, part.word + number),
            Parts::Many(_) => self.word_among(hint, number),
        }
    }

    // The same, stretch by stretch.
    fn word_among(&self, hint: u32, number: u32) -> (u32, u32)
        requires { number < count_in self.now }
        ensures stretch { result.0 ≡ (pair_at self.now number).0 }
        ensures word { result.1 ≡ (pair_at self.now number).1 }
    {
        let mut k = self.nearest(hint as usize, number);
        let mut part = self.part(k);
        'stretches: while part.after <= number {
            k += 1;
            part = self.part(k);
        }
        (k as u32, part.word + (number - part.first))
    }

    /// The same stretches. `AllocError`: there is a stretch, and there was no memory for the list.
    pub fn copied(&self, alloc: Global) -> Result<Layout, AllocError>
        ensures ok { IfOk result (λ layout. layout ≡ self.now) }
        ensures memory { OnErr result (0 < length self.now) }
    {
        let parts = match &self.parts {
            Parts::One(part) => Parts::One(*part),
            Parts::Many(parts) => Parts::Many(copied_parts(alloc, parts.as_slice())?),
        };
        Ok(Layout {
            parts,
            length: self.length,
            count: self.count,
        })
    }

    /// Where the byte at this place of the message is found, in a stretch from this one on.
    pub fn find(&self, from: usize, pos: u32) -> Found
        requires begun { start_of self.now from ≤ pos }
        requires within { pos < length_in self.now }
        ensures begun { start_of self.now result.at ≤ pos }
        ensures number { result.number ≡ word_at self.now pos }
        ensures later { pos < result.until }
        ensures within { result.until ≤ length_in self.now }
        ensures here { (p : ℕ) → pos ≤ p → p < result.until
            → (word_at self.now p ≡ word_at self.now pos) × (offset_at self.now p ≡ (p + result.skew) % 8) }
        ensures after { (p : ℕ) → result.until ≤ p → word_at self.now pos < word_at self.now p }
        ensures small { result.skew < 16 }
        ensures ends { (pos + result.skew) % 8 + (result.until - pos) ≤ 8 }
    {
        let at = self.reached(from, pos);
        let part = self.part(at);
        let reach = part.shift as u64 + (pos - part.start) as u64;
        let left = part.end - pos;
        let more = 8 - (reach % 8) as u32;
        Found {
            at,
            number: part.first + (reach / 8) as u32,
            until: pos + left.min(more),
            skew: part.shift + 8 - part.start % 8,
        }
    }

    // The stretch of the byte at this place of the message, which is this one or comes after it.
    fn reached(&self, from: usize, pos: u32) -> usize
        requires begun { start_of self.now from ≤ pos }
        requires within { pos < length_in self.now }
        ensures inside { result < length self.now }
        ensures begun { start_of self.now result ≤ pos }
        ensures ends { pos < start_of self.now (result + 1) }
    {
        match &self.parts {
            Parts::One(_) => 0,
            Parts::Many(_) => self.reached_among(from, pos),
        }
    }

    // The same, stretch by stretch.
    fn reached_among(&self, from: usize, pos: u32) -> usize
        requires begun { start_of self.now from ≤ pos }
        requires within { pos < length_in self.now }
        ensures inside { result < length self.now }
        ensures begun { start_of self.now result ≤ pos }
        ensures ends { pos < start_of self.now (result + 1) }
    {
        let mut at = from;
        let mut part = self.part(at);
        'stretches: while part.end <= pos {
            at += 1;
            part = self.part(at);
        }
        at
    }
}

// The same parts. `AllocError`: there is a part, and there was no memory for the list.
fn copied_parts(alloc: Global, parts: &[Part]) -> Result<Vec<Part>, AllocError>
    ensures ok { IfOk result (λ copied. copied.items ≡ parts.now) }
    ensures memory { OnErr result (0 < length parts.now) }
{
    if parts.is_empty() {
        return Ok(Vec::new(alloc));
    }
    Ok(Vec::from_slice(alloc, parts)?)
}

/// How many words may be loaded: the message's, or without a layout all of so many.
pub fn word_count(layout: Option<&Layout>, all: u32) -> u32
    ensures { result ≡ loadable (option_map (λ l. l.now) layout.entry) all }
{
    match layout {
        None => all,
        Some(layout) => layout.count(),
    }
}
