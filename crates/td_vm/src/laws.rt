//! Laws of room and of steps. They do nothing when they are called.

ghost use Rattle.std.specs.Prelude.{ℕ, ◌≤◌, List, length};
ghost use Rattle.td_vm.specs.Imports.{Entry, Parts};
ghost use Rattle.td_ir.specs.Entries.{Fits};
ghost use Rattle.td_verify_runs.specs.Laws.{RunIsBounded};
ghost use Rattle.td_vm.specs.Need.{most_entry_cells};

use td_verify_runs::laws as runs;

/// Cells that fit an entry point of code are no more than a frame has room for that was armed for the code.
pub fn fitting_cells_have_room()
    ensures { (c : Parts) (entry : Entry) (args cells : List ℕ) → Fits c entry args cells → length cells ≤ most_entry_cells c }
{}

/// A run of verified code from one of its entry points takes no more steps than the entry point's weight, for each byte of the
/// message and once more. These are the steps of the definition `run`, whatever runs the code; `validate` counts as many.
pub fn run_is_bounded()
    ensures { RunIsBounded }
{
    runs::run_is_bounded();
}
