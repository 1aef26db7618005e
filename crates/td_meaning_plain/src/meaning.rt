//! The plain program.

ghost use Rattle.std.specs.Prelude.{◌≡◌, ◌≢◌, ℕ, ◌<◌, ◌^◌, ◌⊎◌, [], IfOk, OnErr, MatchOption, slice_get, Some, None, length, take, drop};
ghost use Rattle.td_core.specs.Entries.{entry_definition};
ghost use Rattle.td_core.specs.Outcome.{copies_by};
ghost use Rattle.td_meaning.specs.Copies.{buffers_at, opened, outcome};
ghost use Rattle.td_meaning.specs.Verdicts.{ending_of};
ghost use Rattle.td_expr.specs.Sound.{Sound};
ghost use Rattle.td_meaning.specs.Meaning.{meaning};
ghost use Rattle.td_meaning.specs.Throughout.{Throughout};

use crate::copies::copies_by;
use crate::slate::Slate;
use crate::types::{Walk, named};
use std::alloc::{AllocError, Global};
use td_core::module::{Entry, Module};
use td_core::outcome::{Outcome, Reason, Verdict};
use td_meaning::parameters::places_below;
use td_num::items::Items;

// The place of an entry point's definition; none where the module has no such entry point.
fn entry_place(m: &Module, entry: Entry) -> Option<u32>
    ensures { MatchOption result (slice_get m.now.entries entry.number ≡ None)
        (λ place. slice_get m.now.entries entry.number ≡ Some place) }
{
    m.entries.as_slice().get(entry.number as usize).copied()
}

// How many copy buffers an entry point has.
fn buffers_at(m: &Module, entry: Entry) -> usize
    ensures { result ≡ buffers_at (entry_definition m.now entry.number) }
{
    match m.entries.as_slice().get(entry.number as usize) {
        None => 0,
        Some(place) => match m.definitions.as_slice().get(*place as usize) {
            None => 0,
            Some(definition) => definition.buffers.len(),
        },
    }
}

// The same cells. `AllocError`: there is one, and there was no memory for them.
fn copied_cells(alloc: Global, cells: &[u64]) -> Result<Vec<u64>, AllocError>
    ensures ok { IfOk result (λ copied. copied.items ≡ cells.now) }
    ensures memory { OnErr result (0 < length cells.now) }
{
    if cells.is_empty() {
        return Ok(Vec::new(alloc));
    }
    Ok(Vec::from_slice(alloc, cells)?)
}

/// The cells of an entry point, with those of its copy buffers, which hold nothing at first. `AllocError`: they are more than
/// none, and there was no memory for them.
pub fn opened(
    alloc: Global,
    m: &Module,
    entry: Entry,
    cells: &[u64],
) -> Result<Vec<u64>, AllocError>
    ensures ok { IfOk result (λ all. all.items ≡ opened m.now entry cells.now) }
    ensures memory { OnErr result (0 < length (opened m.now entry cells.now)) }
{
    let mut all = copied_cells(alloc, cells)?;
    for k in 0..buffers_at(m, entry) {
        all.push(0)?;
        all.push(0)?;
    }
    Ok(all)
}

// How the message ends, over all cells. `AllocError`: there is such an entry point, and there was no memory.
fn verdict_of(
    alloc: Global,
    m: &Module,
    entry: Entry,
    args: &[u64],
    bytes: &[u8],
    slate: &mut Slate,
) -> Result<Verdict, AllocError>
    requires small { length bytes.now < 2 ^ 32 }
    requires empty_trace { slate.old.trace ≡ [] }
    ensures ending { IfOk result (λ v. Throughout Sound m.now entry args.now slate.old.cells.items bytes.now
        → (meaning m.now entry args.now slate.old.cells.items bytes.now).ending ≡ ending_of v slate.new.trace slate.new.cells.items) }
    ensures empty_trace { IfOk result (λ v. (q : ℕ) → v ≡ Verdict.Accept q → slate.new.trace ≡ []) }
    ensures untouched { slice_get m.now.entries entry.number ≡ None → slate.new.cells.items ≡ slate.old.cells.items }
    ensures memory { OnErr result (slice_get m.now.entries entry.number ≢ None) }
{
    let Some(place) = entry_place(m, entry) else {
        return Ok(Verdict::Reject {
            reason: Reason::Impossible,
            pos: 0,
        });
    };
    let places = places_below(alloc, slate.cells.len())?;
    let walk = Walk {
        alloc,
        m,
        bound: m.definitions.len(),
        places: places.as_slice(),
        message: bytes,
        end: bytes.len() as u32,
    };
    named(&walk, place, args, 0, slate)
}

// The outcome, of which so many of the first cells are the entry point's. `AllocError`: there is a cell, and there was no
// memory for the cells or the copies.
fn outcome_from(
    alloc: Global,
    verdict: Verdict,
    slate: Slate,
    count: usize,
    bytes: &[u8],
) -> Result<Outcome, AllocError>
    ensures ok { IfOk result (λ o. o ≡ record { verdict = verdict; trace = slate.trace; cells = take count slate.cells.items; copies = copies_by bytes.now (drop count slate.cells.items) }) }
    ensures memory { OnErr result (0 < length slate.cells.items) }
{
    let Slate { cells, trace } = slate;
    let (own, rest) = cells.as_slice().split_at(count.min(cells.len()));
    Ok(Outcome {
        verdict,
        trace,
        cells: Items::copy_of(alloc, own)?,
        copies: copies_by(alloc, bytes, rest)?,
    })
}

/// What the module says of a message from an entry point: its verdict, the frames of its failure, and the cells and the
/// copies as they then are. It holds on each message on which every expression that the meaning evaluates lies in its
/// type's range, as in a module that passed the safety rule. `AllocError`: there is such an entry point or a cell, and there
/// was no memory.
pub fn meaning(
    alloc: Global,
    m: &Module,
    entry: Entry,
    args: &[u64],
    cells: &[u64],
    bytes: &[u8],
) -> Result<Outcome, AllocError>
    requires { length bytes.now < 2 ^ 32 }
    ensures ok { IfOk result (λ o. Throughout Sound m.now entry args.now (opened m.now entry cells.now) bytes.now
        → o ≡ outcome m.now entry args.now cells.now bytes.now) }
    ensures memory { OnErr result ((slice_get m.now.entries entry.number ≢ None) ⊎ (0 < length cells.now)) }
{
    let mut slate = Slate {
        cells: opened(alloc, m, entry, cells)?,
        trace: Items::new(alloc),
    };
    let verdict = verdict_of(alloc, m, entry, args, bytes, &mut slate)?;
    Ok(outcome_from(alloc, verdict, slate, cells.len(), bytes)?)
}
