//! Walks along chains.

ghost use Rattle.std.specs.Prelude.{◌≡◌, ℕ, ◌+◌, ◌*◌, ◌≤◌, [], vec_capacity};
ghost use Rattle.td_chain.specs.Loaded.{Holds, Looked};
ghost use Rattle.td_chain.specs.Places.{AreWithin, GoesTo, IsAt, IsOpen};
ghost use Rattle.td_chain.specs.Chain.{begun, descriptor_at, moved};
ghost use Rattle.td_chain.specs.Walks.{IsWalk, come_to};

use crate::loaded::load_descriptor;
use crate::memory::Memory;
use crate::piece::Piece;
use crate::queue::Queue;
use crate::refusal::{ChainError, Refusal};
use crate::region::Region;
use crate::step::{Move, Walk, step};
use td_stream::loads::Loads;

// Where a walk begins.
fn begin(queue: &Queue, head: u16) -> Walk
    ensures { result ≡ begun queue.now head }
{
    Walk {
        table: queue.table,
        entries: queue.size as u32,
        index: head as u32,
        is_indirect: false,
        bytes: 0,
        writes: false,
    }
}

// A refusal where a walk is.
fn refuse(error: ChainError, at: Walk) -> Refusal
    ensures { result ≡ record { error = error; descriptor = at.index; is_indirect = at.is_indirect } }
{
    Refusal {
        error,
        descriptor: at.index,
        is_indirect: at.is_indirect,
    }
}

// Looks at the descriptor where a walk is.
fn look<W: Memory>(
    words: &mut W,
    queue: &Queue,
    regions: &[Region],
    at: Walk,
    loads: &mut Loads,
) -> Move
    requires regions { AreWithin (8 * W.size words.old) regions.now }
    requires at { IsAt queue.now regions.now (8 * W.size words.old) at }
    requires same { loads.old.list ≡ W.loads words.old }
    requires room { 4 ≤ loads.old.room }
    ensures looked { Looked W.loads W.reaches (IsOpen queue.now regions.now) 4 words.old words.new loads.old loads.new }
    ensures value { (m : ℕ → ℕ) → Holds m loads.new.list
        → result ≡ moved queue.now regions.now at (descriptor_at m (at.table + 16 * at.index)) }
    ensures goes { GoesTo (IsAt queue.now regions.now (8 * W.size words.old)) result }
{
    // That there are fewer than 2^32 words is what this call says.
    let _count = words.count();
    let d = load_descriptor(words, loads, at.table + 16 * at.index as u64);
    step(queue, regions, at, d)
}

/// Walks along a chain of a queue from a head on, and puts its pieces into a list that has room for one more than the queue has entries.
/// `loads` has room for four times as many, and has all loads afterwards. It takes no memory, and waits for nobody. `Refusal`: why the
/// chain is refused, and at which descriptor; the pieces are then those before it.
pub fn walk_chain<W: Memory>(
    words: &mut W,
    queue: &Queue,
    regions: &[Region],
    head: u16,
    pieces: &mut Vec<Piece>,
    loads: &mut Loads,
) -> Result<(), Refusal>
    requires table { queue.now.table + 16 * queue.now.size ≤ 8 * W.size words.old }
    requires regions { AreWithin (8 * W.size words.old) regions.now }
    requires fresh { W.loads words.old ≡ [] }
    requires empty { loads.old.list ≡ [] }
    requires no_pieces { pieces.old.items ≡ [] }
    requires loads_room { 4 * (queue.now.size + 1) ≤ loads.old.room }
    requires room { queue.now.size + 1 ≤ vec_capacity pieces.old }
    ensures walk { IsWalk queue.now regions.now head loads.new.list (come_to pieces.new.items result) }
    ensures logged { loads.new.list ≡ W.loads words.new }
    ensures reaches { W.reaches words.old words.new }
    ensures memory { vec_capacity pieces.new ≡ vec_capacity pieces.old }
{
    let mut at = begin(queue, head);
    if head >= queue.size {
        return Err(refuse(ChainError::Beyond, at));
    }
    let most = queue.size as u32 + 1;
    for step in 0..most {
        match look(words, queue, regions, at, loads) {
            Move::Table(next) => at = next,
            Move::Next(piece, next) => {
                pieces.push_reserved(piece);
                at = next;
            }
            Move::Last(piece) => {
                pieces.push_reserved(piece);
                return Ok(());
            }
            Move::Refused(error) => return Err(refuse(error, at)),
        }
    }
    Err(refuse(ChainError::TooLong, at))
}
