//! Runs a routine over a message, with cells and buffers that are opened first.

ghost use Rattle.std.specs.Prelude.{◌≡◌, ℕ, ◌-◌, ◌*◌, ◌≤◌, List, [], ◌++◌, length, map, take, drop, replicate};
ghost use Rattle.td_ir.specs.Tables.{routine_of};
ghost use Rattle.td_ir.specs.Run.{run_routine};
ghost use Rattle.td_stream.specs.Layouts.{count_in};
ghost use Rattle.td_stream.specs.Loads.{IsFetchedOnce};
ghost use Rattle.td_stream.specs.Copies.{rooms_of, held_by, empty_with};
ghost use Rattle.td_vm_step.specs.Stepping.{IsLent};
ghost use Rattle.td_vm.specs.Exits.{frames_of};
ghost use Rattle.td_vm.specs.Outcomes.{IsCodeRun};
ghost use Rattle.td_vm.specs.Machine.{HasEntryRoom, IsKept, AreRoomy};
ghost use Rattle.td_vm.specs.Need.{cells as cells_in};

use crate::entry::run_entry;
use crate::level::{Call, Spare};
use crate::machine::place_count;
use std::sync::ledger::Ledger;
use td_core::outcome::Verdict;
use td_stream::layout::Layout;
use td_stream::words::Words;
use td_vm_step::slate::Slate;
use td_vm_step::steps::{Counter, Steps};
use td_vm_step::tables::routine_at;

// The cells of buffers that hold nothing, behind the first cells.
fn open_cells(cells: &mut [u64], first: usize)
    requires { first ≤ length cells.old }
    ensures { cells.new ≡ take first cells.old ++ replicate (length cells.old - first) 0 }
{
    let (_, behind) = cells.split_at_mut(first);
    behind.fill(0);
}

/// Runs a routine over a message that lies so in words of which none was loaded: with the first cells of a list, as many as the routine
/// has and two for each of its buffers, which are set to zero, with the first of the buffers, which hold nothing, and a trace that is
/// emptied first. The other buffers stay.
pub fn run_message<W: Words, L: Ledger, C: Counter>(
    call: &Call<'_, '_>,
    layout: &Layout,
    spare: &mut Spare<'_, '_>,
    slate: &mut Slate<'_, '_, '_>,
    words: &mut W,
    steps: &mut Steps<L, C>,
) -> Verdict
    requires room { HasEntryRoom call.now.code call.now.n spare.old.places.now spare.old.registers.now slate.old.trace.now }
    requires args { length call.now.args.now ≡ (routine_of call.now.code.parts.now call.now.n).params }
    requires cell_room { cells_in call.now.code.parts.now call.now.n ≤ length slate.old.cells.now }
    requires rooms { AreRoomy (routine_of call.now.code.parts.now call.now.n).buffers (rooms_of slate.old.copies.now) }
    requires none { slate.old.copies.now ≡ map empty_with (rooms_of slate.old.copies.now) }
    requires words { count_in layout.now ≤ W.size words.old }
    requires fresh { W.loads words.old ≡ [] }
    ensures reaches { W.reaches words.old words.new }
    ensures kept { IsKept spare.old spare.new }
    ensures lent { IsLent slate.old slate.new }
    ensures rest { drop (length (routine_of call.now.code.parts.now call.now.n).buffers) slate.new.copies.now ≡ drop (length (routine_of call.now.code.parts.now call.now.n).buffers) slate.old.copies.now }
    ensures frames { slate.new.trace.now.count ≤ length slate.new.trace.now.frames.items }
    ensures fetched { IsFetchedOnce layout.now (W.loads words.new) (λ (b : List ℕ).
        IsCodeRun layout.now (routine_of call.now.code.parts.now call.now.n).cells b (W.loads words.new)
        (run_routine call.now.code.parts.now call.now.n call.now.args.now (take (routine_of call.now.code.parts.now call.now.n).cells slate.old.cells.now ++ replicate (2 * length (routine_of call.now.code.parts.now call.now.n).buffers) 0) b)
        (record {
          verdict = result;
          trace = frames_of slate.new.trace.now;
          cells = take (routine_of call.now.code.parts.now call.now.n).cells slate.new.cells.now;
          copies = held_by (take (length (routine_of call.now.code.parts.now call.now.n).buffers) slate.new.copies.now);
        }) steps.old steps.new) }
{
    let routine = routine_at(call.code.parts, call.n);
    let all = &mut *slate.cells;
    let buffers = &mut *slate.copies;
    let trace = &mut *slate.trace;
    trace.count = 0;
    let (cells, _) = all.split_at_mut(place_count(routine));
    open_cells(cells, routine.cells as usize);
    let (copies, _) = buffers.split_at_mut(routine.buffers.len());
    let mut front = Slate {
        cells,
        copies,
        trace,
    };
    run_entry(call, layout, spare, &mut front, words, steps)
}
