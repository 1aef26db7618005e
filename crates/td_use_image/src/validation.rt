//! One validation by verified code.

ghost use Rattle.std.specs.Prelude.{◌≡◌, ◌*◌, ◌≤◌, [], length as size_of, IfOk};
ghost use Rattle.td_stream.specs.Layouts.{plain};
ghost use Rattle.td_ir.specs.Entries.{Fits};
ghost use Rattle.td_run.specs.Validation.{IsValidation};

use crate::shared_words::SharedWords;
use std::alloc::{AllocError, Global};
use td_core::module::Entry;
use td_core::outcome::Outcome;
use td_run::validation::validate_compiled;
use td_stream::layout::Layout;
use td_verify::verify::Verified;
use td_vm::laws::fitting_cells_have_room;
use td_vm::validate::Frame;

/// Validates a message of so many bytes at the front of words of which none was loaded yet. `AllocError`: there was no memory for the
/// frame, and nothing was loaded; from the first load on no memory is taken.
pub fn validated(
    alloc: Global,
    code: &Verified,
    entry: Entry,
    args: &[u64],
    cells: &[u64],
    length: u32,
    words: &mut SharedWords<'_>,
) -> Result<Outcome, AllocError>
    requires fits { Fits code.now entry args.now cells.now }
    requires room { length ≤ 8 * size_of words.old.words.now }
    requires fresh { words.old.loads.list ≡ [] }
    ensures { IfOk result (λ outcome. IsValidation code.now entry args.now cells.now (plain length) words.new.loads.list outcome) }
{
    fitting_cells_have_room();
    let mut frame = Frame::arm(alloc, code)?;
    frame.set_cells(cells);
    let layout = Layout::plain(length);
    let verdict = validate_compiled(code, entry, args, &layout, &mut frame, words);
    Ok(frame.into_outcome(code, entry, verdict))
}
