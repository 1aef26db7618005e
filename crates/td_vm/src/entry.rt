//! Runs a routine from outside, over the words of a message.

ghost use Rattle.std.specs.Prelude.{◌≡◌, ℕ, ◌+◌, ◌*◌, ◌≤◌, List, [], length, map, take, drop, replicate};
ghost use Rattle.td_num.specs.Numbers.{places_from};
ghost use Rattle.td_ir.specs.Tables.{routine_of};
ghost use Rattle.td_ir.specs.Run.{run_routine};
ghost use Rattle.td_stream.specs.Layouts.{count_in};
ghost use Rattle.td_stream.specs.Loads.{IsFetchedOnce};
ghost use Rattle.td_stream.specs.Copies.{rooms_of, held_by, empty_with};
ghost use Rattle.td_vm_step.specs.Stepping.{IsLent};
ghost use Rattle.td_vm.specs.Exits.{frames_of, verdict_by, NotTurned};
ghost use Rattle.td_vm.specs.Outcomes.{IsCodeRun};
ghost use Rattle.td_vm.specs.Machine.{HasEntryRoom, IsKept, AreRoomy};

use crate::level::{Call, CodeStretch, Spare};
use crate::machine::{place_count, run_block, set_registers};
use std::sync::ledger::Ledger;
use td_core::outcome::Verdict;
use td_stream::layout::Layout;
use td_stream::stream::Stream;
use td_stream::words::Words;
use td_vm_step::activation::{Activation, BlockExit, Level};
use td_vm_step::slate::Slate;
use td_vm_step::steps::{Counter, Steps};
use td_vm_step::tables::routine_at;

// The cells of an entry point are its own, in order, and behind them those of its buffers.
fn set_own_places(mine: &mut [usize])
    ensures { mine.new ≡ places_from 0 (length mine.old) }
{
    for i in 0..mine.len() {
        mine[i] = i;
    }
}

// The verdict where a whole routine was left so, at that position.
fn verdict_of(exit: BlockExit, pos: u32) -> Verdict
    requires { NotTurned exit }
    ensures { result ≡ verdict_by exit pos }
{
    match exit {
        BlockExit::Returned => Verdict::Accept { pos },
        BlockExit::Turned => unreachable!(),
        BlockExit::Failed { reason, pos } => Verdict::Reject { reason, pos },
    }
}

/// Runs a routine over a message that lies so in words of which none was loaded, with its cells and behind them two for each of its
/// buffers, which hold nothing.
pub fn run_entry<W: Words, L: Ledger, C: Counter>(
    call: &Call<'_, '_>,
    layout: &Layout,
    spare: &mut Spare<'_, '_>,
    slate: &mut Slate<'_, '_, '_>,
    words: &mut W,
    steps: &mut Steps<L, C>,
) -> Verdict
    requires room { HasEntryRoom call.now.code call.now.n spare.old.places.now spare.old.registers.now slate.old.trace.now }
    requires cells { length slate.old.cells.now ≡ (routine_of call.now.code.parts.now call.now.n).cells + 2 * length slate.old.copies.now }
    requires opened { drop (routine_of call.now.code.parts.now call.now.n).cells slate.old.cells.now ≡ replicate (2 * length slate.old.copies.now) 0 }
    requires buffers { length slate.old.copies.now ≡ length (routine_of call.now.code.parts.now call.now.n).buffers }
    requires rooms { AreRoomy (routine_of call.now.code.parts.now call.now.n).buffers (rooms_of slate.old.copies.now) }
    requires none { slate.old.copies.now ≡ map empty_with (rooms_of slate.old.copies.now) }
    requires empty { slate.old.trace.now.count ≡ 0 }
    requires args { length call.now.args.now ≡ (routine_of call.now.code.parts.now call.now.n).params }
    requires words { count_in layout.now ≤ W.size words.old }
    requires fresh { W.loads words.old ≡ [] }
    ensures reaches { W.reaches words.old words.new }
    ensures kept { IsKept spare.old spare.new }
    ensures lent { IsLent slate.old slate.new }
    ensures frames { slate.new.trace.now.count ≤ length slate.new.trace.now.frames.items }
    ensures fetched { IsFetchedOnce layout.now (W.loads words.new) (λ (b : List ℕ).
        IsCodeRun layout.now (routine_of call.now.code.parts.now call.now.n).cells b (W.loads words.new)
        (run_routine call.now.code.parts.now call.now.n call.now.args.now slate.old.cells.now b)
        (record {
          verdict = result;
          trace = frames_of slate.new.trace.now;
          cells = take (routine_of call.now.code.parts.now call.now.n).cells slate.new.cells.now;
          copies = held_by slate.new.copies.now;
        }) steps.old steps.new) }
{
    let routine = routine_at(call.code.parts, call.n);
    let from = call.code.begins[call.n];
    let to = call.code.begins[call.n + 1];
    let registers = &mut *spare.registers;
    let places = &mut *spare.places;
    let (mine, rest) = registers.split_at_mut(routine.registers as usize);
    let (mine_places, rest_places) = places.split_at_mut(place_count(routine));
    set_registers(mine, call.args);
    set_own_places(mine_places);
    let mut stream = Stream::over(words, layout);
    let start = stream.pos();
    let outer = stream.end();
    let mut act = Activation { start, outer };
    let level = Level {
        code: call.code,
        n: call.n,
        first: routine.cells as usize,
        places: mine_places,
    };
    let whole = CodeStretch {
        level: &level,
        first: from,
        to,
    };
    let mut free = Spare {
        places: rest_places,
        registers: rest,
    };
    let exit = run_block(&whole, &mut free, mine, slate, &mut act, &mut stream, steps);
    verdict_of(exit, stream.pos())
}
