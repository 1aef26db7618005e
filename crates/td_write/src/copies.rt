//! Copies of what was written.

ghost use Rattle.std.specs.Prelude.{◌≡◌, ◌≤◌, [], IfOk, length, take, drop};
ghost use Rattle.td_write.specs.Imports.{Accept};
ghost use Rattle.td_core.specs.Outcome.{copies_by};
ghost use Rattle.td_write_values.specs.Spelling.{noted};
ghost use Rattle.td_write_values.specs.declared.limits.TheConstants.{MOST_WRITTEN};

use std::alloc::{AllocError, Global};
use td_core::module::CopyOut;
use td_core::outcome::{Outcome, Verdict};
use td_meaning::copies::put_copy;
use td_meaning_plain::copies::copies_by;
use td_num::items::Items;

/// Where a field is copied, notes the place and the number of its bytes.
pub(crate) fn note_copy(
    copy: &Option<CopyOut>,
    places: &[usize],
    start: usize,
    count: usize,
    cells: &mut [u64],
)
    ensures { cells.new ≡ noted copy.now places.now start count cells.old }
{
    match copy {
        Some(copy) => put_copy(*copy, places, start as u64, count as u64, cells),
        None => {}
    }
}

/// How what was written is accepted, by all cells, of which the first ones are the entry point's. `AllocError`: out of
/// memory.
pub(crate) fn accepted_with(
    alloc: Global,
    written: &[u8],
    mut cells: Vec<u64>,
    count: usize,
) -> Result<Outcome, AllocError>
    requires short { length written.now ≤ MOST_WRITTEN }
    requires own { count ≤ length cells.items }
    ensures { IfOk result (λ o. o ≡ record { verdict = Accept (length written.now); trace = []; cells = take count cells.items; copies = copies_by written.now (drop count cells.items) }) }
{
    let copies = copies_by(alloc, written, &cells.as_slice()[count..])?;
    cells.truncate(count);
    Ok(Outcome {
        verdict: Verdict::Accept {
            pos: written.len() as u32,
        },
        trace: Items::new(alloc),
        cells: Items::of(cells),
        copies,
    })
}
