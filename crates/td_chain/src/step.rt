//! One step of a walk along a chain.

ghost use Rattle.std.specs.Prelude.{◌≡◌, ℕ, ◌+◌, ◌-◌, ◌≤◌, ◌^◌, List};
ghost use Rattle.td_chain.specs.Places.{AreWithin, IsAt, GoesTo};
ghost use Rattle.td_chain.specs.Chain.{moved, placed, referred};
ghost use Rattle.td_chain.specs.declared.queue.Queue.{Queue};
ghost use Rattle.td_chain.specs.declared.region.Region.{Region};

use crate::descriptor::Descriptor;
use crate::piece::Piece;
use crate::queue::Queue;
use crate::refusal::ChainError;
use crate::region::{Region, translated};

/// Where a walk is: the byte of the memory at which the table begins, how many entries it has, the descriptor to look at next, whether the
/// table is an indirect one, how many bytes the buffers so far have, and whether the last of them is one that the device writes.
#[derive(Clone, Copy)]
pub(crate) struct Walk {
    pub(crate) table: u64,
    pub(crate) entries: u32,
    pub(crate) index: u32,
    pub(crate) is_indirect: bool,
    pub(crate) bytes: u64,
    pub(crate) writes: bool,
}

/// What a descriptor comes to: on to an indirect table, a piece and on, the last piece, or a refusal.
#[derive(Clone, Copy)]
pub(crate) enum Move {
    Table(Walk),
    Next(Piece, Walk),
    Last(Piece),
    Refused(ChainError),
}

// A descriptor that refers to a table.
fn refer(queue: &Queue, regions: &[Region], at: Walk, d: Descriptor) -> Move
    requires regions { AreWithin (2 ^ 64 - 1) regions.now }
    requires bytes { at.bytes ≤ 2 ^ 32 }
    ensures value { result ≡ referred queue.now regions.now at d }
    ensures goes { (bytes : ℕ) → AreWithin bytes regions.now → GoesTo (IsAt queue.now regions.now bytes) result }
{
    if at.is_indirect || !queue.indirect {
        return Move::Refused(ChainError::NotAllowed);
    }
    if d.has_next {
        return Move::Refused(ChainError::WithNext);
    }
    if d.size == 0 || d.size % 16 != 0 {
        return Move::Refused(ChainError::BadTable);
    }
    match translated(regions, d.address, d.size) {
        None => Move::Refused(ChainError::Outside),
        Some(place) => Move::Table(Walk {
            table: place,
            entries: d.size / 16,
            index: 0,
            is_indirect: true,
            bytes: at.bytes,
            writes: at.writes,
        }),
    }
}

// A buffer.
fn place(at: Walk, d: Descriptor, found: Option<u64>) -> Move
    requires { at.bytes ≤ 2 ^ 32 }
    ensures value { result ≡ placed at d found }
    ensures goes { (q : Queue) (regions : List Region) (bytes : ℕ) → IsAt q regions bytes at → GoesTo (IsAt q regions bytes) result }
{
    let Some(place) = found else {
        return Move::Refused(ChainError::Outside);
    };
    if at.writes && !d.is_writable {
        return Move::Refused(ChainError::OutOfOrder);
    }
    let bytes = at.bytes + d.size as u64;
    if bytes > 4_294_967_296 {
        return Move::Refused(ChainError::TooLarge);
    }
    let piece = Piece {
        place,
        size: d.size,
        is_writable: d.is_writable,
    };
    if !d.has_next {
        return Move::Last(piece);
    }
    let next = d.next as u32;
    if next < at.entries {
        let to = Walk {
            table: at.table,
            entries: at.entries,
            index: next,
            is_indirect: at.is_indirect,
            bytes,
            writes: d.is_writable,
        };
        return Move::Next(piece, to);
    }
    Move::Refused(ChainError::Beyond)
}

// What a descriptor comes to.
pub(crate) fn step(queue: &Queue, regions: &[Region], at: Walk, d: Descriptor) -> Move
    requires regions { AreWithin (2 ^ 64 - 1) regions.now }
    requires bytes { at.bytes ≤ 2 ^ 32 }
    ensures value { result ≡ moved queue.now regions.now at d }
    ensures goes { (bytes : ℕ) → AreWithin bytes regions.now → IsAt queue.now regions.now bytes at
        → GoesTo (IsAt queue.now regions.now bytes) result }
{
    if d.is_indirect {
        return refer(queue, regions, at, d);
    }
    place(at, d, translated(regions, d.address, d.size))
}
