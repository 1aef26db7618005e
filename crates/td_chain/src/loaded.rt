//! Words of a memory, each loaded at most once.

ghost use Rattle.std.specs.Prelude.{◌≡◌, ℕ, ◌+◌, ◌*◌, ◌<◌, ◌≤◌};
ghost use Rattle.td_chain.specs.Loaded.{Holds, Looked, value_in};
ghost use Rattle.td_chain.specs.Places.{Touches};
ghost use Rattle.td_chain.specs.Chain.{descriptor_at, number_at};

use crate::descriptor::{Descriptor, describe, join};
use crate::memory::Memory;
use td_stream::load::Load;
use td_stream::loads::Loads;

// What was loaded of word i, if it was.
fn found(loads: &[Load], i: u32) -> Option<u64>
    ensures { result ≡ value_in i loads.now }
{
    for l in loads {
        if l.word == i {
            return Some(l.value);
        }
    }
    None
}

// Word i: what was loaded of it, or else a load.
fn fetch<W: Memory>(words: &mut W, loads: &mut Loads, i: u32) -> u64
    requires within { i < W.size words.old }
    requires same { loads.old.list ≡ W.loads words.old }
    requires room { 0 < loads.old.room }
    ensures looked { Looked W.loads W.reaches (λ j. j ≡ i) 1 words.old words.new loads.old loads.new }
    ensures value { (m : ℕ → ℕ) → Holds m loads.new.list → result ≡ m i }
{
    if let Some(value) = found(loads.as_slice(), i) {
        return value;
    }
    let value = words.load(i);
    loads.push(Load { word: i, value });
    value
}

// The number of 64 bits that begins at a byte of the memory.
fn load_number<W: Memory>(words: &mut W, loads: &mut Loads, place: u64) -> u64
    requires within { place + 8 ≤ 8 * W.size words.old }
    requires same { loads.old.list ≡ W.loads words.old }
    requires room { 2 ≤ loads.old.room }
    ensures looked { Looked W.loads W.reaches (Touches place 8) 2 words.old words.new loads.old loads.new }
    ensures value { (m : ℕ → ℕ) → Holds m loads.new.list → result ≡ number_at m place }
{
    // That there are fewer than 2^32 words is what this call says.
    let _count = words.count();
    let word = (place / 8) as u32;
    let low = fetch(words, loads, word);
    let k = (place % 8) as u32;
    if k == 0 {
        return low;
    }
    let high = fetch(words, loads, word + 1);
    join(low, high, k)
}

/// The descriptor that begins at a byte of the memory. Each of its words that wasn't loaded before is, once.
pub(crate) fn load_descriptor<W: Memory>(words: &mut W, loads: &mut Loads, place: u64) -> Descriptor
    requires within { place + 16 ≤ 8 * W.size words.old }
    requires same { loads.old.list ≡ W.loads words.old }
    requires room { 4 ≤ loads.old.room }
    ensures looked { Looked W.loads W.reaches (Touches place 16) 4 words.old words.new loads.old loads.new }
    ensures value { (m : ℕ → ℕ) → Holds m loads.new.list → result ≡ descriptor_at m place }
{
    // That there are fewer than 2^32 words is what this call says.
    let _count = words.count();
    let first = load_number(words, loads, place);
    let second = load_number(words, loads, place + 8);
    describe(first, second)
}
