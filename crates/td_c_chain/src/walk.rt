//! What C calls to walk along a chain.

ghost use Rattle.std.specs.Prelude.{◌≡◌, ◌⊎◌, ◌↔◌, ◌+◌, ◌*◌, ◌≤◌, [], IfOk, pos, vec_capacity};
ghost use Rattle.td_chain.specs.Walks.{IsWalk, come_to};
ghost use Rattle.td_c_chain.specs.Told.{IsInside, IsToldOf};

use crate::inside::is_inside;
use crate::rows::{TdChainPiece, put_loads, put_pieces};
use crate::told::{TdChainEnd, tell};
use std::alloc::{AllocError, Global};
use std::mem;
use td_chain::{Piece, Queue, Refusal, Region, walk_chain};
use td_foreign::{ForeignMemory, TdLoad, TdWords};
use td_stream::loads::Loads;

/// `TD_DONE` of td.h.
const DONE: i32 = 0;
/// `TD_NO_MEMORY` of td.h.
const NO_MEMORY: i32 = 4;
/// `TD_PAST` of td.h.
const PAST: i32 = 6;

// The lists of a walk.
#[derive(Drop)]
struct Lists {
    pieces: Vec<Piece>,
    loads: Loads,
}

// Empty lists with room for a walk along a queue of so many entries. `AllocError`: there was no memory for them.
fn lists_for(alloc: Global, size: u16) -> Result<Lists, AllocError>
    ensures pieces { IfOk result (λ l. (l.pieces.items ≡ []) × (size + 1 ≤ vec_capacity l.pieces)) }
    ensures loads { IfOk result (λ l. (l.loads.list ≡ []) × (4 * (size + 1) ≤ l.loads.room)) }
{
    let most = size as u32 + 1;
    let pieces = Vec::with_capacity(alloc, most as usize)?;
    let loads = Loads::with_room(alloc, 4 * most)?;
    Ok(Lists { pieces, loads })
}

// Walks along a chain within the words, and gives them back.
fn walk_in(
    words: TdWords,
    count: u32,
    queue: &Queue,
    regions: &[Region],
    head: u16,
    lists: &mut Lists,
) -> (Result<(), Refusal>, TdWords)
    requires words { words.count ≡ count }
    requires fresh { words.made ≡ [] }
    requires inside { IsInside count queue.now regions.now }
    requires no_pieces { lists.old.pieces.items ≡ [] }
    requires room { queue.now.size + 1 ≤ vec_capacity lists.old.pieces }
    requires no_loads { lists.old.loads.list ≡ [] }
    requires loads_room { 4 * (queue.now.size + 1) ≤ lists.old.loads.room }
    ensures walk { IsWalk queue.now regions.now head lists.new.loads.list (come_to lists.new.pieces.items result.0) }
    ensures made { result.1.made ≡ lists.new.loads.list }
    ensures words { result.1.count ≡ count }
{
    let mut memory = ForeignMemory::over(words, count);
    let walked = walk_chain(
        &mut memory,
        queue,
        regions,
        head,
        &mut lists.pieces,
        &mut lists.loads,
    );
    (walked, memory.end())
}

/// Walks along a chain of a queue from a head on: each word is loaded at most once, by one atomic load. Pieces and loads are written
/// into the rows, as far as there is room for them, and what is told counts them all. Takes memory before the first load, and gives it
/// back; waits for nobody. The number in the name is that of the layouts of capi/td_chain.h.
#[unsafe(no_mangle)]
pub extern "C" fn td_c_walk_1(
    alloc: Global,
    words: &mut TdWords,
    count: usize,
    queue: &Queue,
    regions: &[Region],
    head: u16,
    pieces: &mut [TdChainPiece],
    loads: &mut [TdLoad],
    end: &mut TdChainEnd,
) -> i32
    requires words { words.old.count ≡ count }
    requires fresh { words.old.made ≡ [] }
    ensures answer { (result ≡ pos 0) ⊎ ((result ≡ pos 4) ⊎ (result ≡ pos 6)) }
    ensures past { (result ≡ pos 6) ↔ (IsInside count queue.now regions.now → ⊥) }
    ensures told { result ≡ pos 0 → IsToldOf queue.now regions.now head words.new.made pieces.old pieces.new loads.old loads.new end.new }
    ensures kept { (result ≡ pos 0 → ⊥) → (words.new.made ≡ []) × (pieces.new ≡ pieces.old) × (loads.new ≡ loads.old) × (end.new ≡ end.old) }
    ensures words { words.new.count ≡ count }
{
    if !is_inside(queue, regions, count) {
        return PAST;
    }
    let Ok(mut lists) = lists_for(alloc, queue.size) else {
        return NO_MEMORY;
    };
    let memory = mem::replace(words, TdWords::none());
    let (walked, memory) = walk_in(memory, count as u32, queue, regions, head, &mut lists);
    *words = memory;
    put_pieces(lists.pieces.as_slice(), pieces);
    put_loads(lists.loads.as_slice(), loads);
    *end = tell(
        lists.pieces.len() as u64,
        lists.loads.as_slice().len() as u64,
        walked,
    );
    DONE
}
