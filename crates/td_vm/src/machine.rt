//! Runs a routine.

ghost use Rattle.std.specs.Prelude.{◌≡◌, ℕ, suc, ◌+◌, ◌-◌, ◌*◌, ◌^◌, ◌<◌, ◌≤◌, true, false, List, [], ◌∷◌, ◌++◌, length, take, drop, replicate, slice_index, vec_capacity};
ghost use Rattle.td_core.specs.Outcome as outcomes;
ghost use Rattle.td_ir.specs.WellFormed.{IsCode};
ghost use Rattle.td_ir.specs.Tables.{routine_of, map_of, lengths_of, first_of, buffer_cells, own_cells, cells_by};
ghost use Rattle.td_ir.specs.State.{State, Exit, registers_from};
ghost use Rattle.td_ir.specs.Run.{place_of_site, places_by, entered, turns, block};
ghost use Rattle.td_vm.specs.Imports.{While};
ghost use Rattle.td_verify.specs.Shape.{shapes_of};
ghost use Rattle.td_verify.specs.Brackets.{shape_at};
ghost use Rattle.td_verify.specs.Ways.{MayBeEmpty};
ghost use Rattle.td_verify.specs.Operands.{AreBelow};
ghost use Rattle.td_verify.specs.Verify.{IsIn};
ghost use Rattle.td_verify.specs.Safe.{looped};
ghost use Rattle.td_stream.specs.StreamInvariant.{IsStream, Later, position, end_of};
ghost use Rattle.td_vm_step.specs.Stepping.{state_of, Ran, InWindow, IsLent, Hold};
ghost use Rattle.td_vm.specs.Exits.{frames_of, exit_by, way_of, call_way, loop_exit, WhenTurned, WhenReturned, NotTurned, NotReturned, Traced};
ghost use Rattle.td_verify_runs.specs.Stretches.{IsStretch, IdleTurn, IdleReturn};
ghost use Rattle.td_vm.specs.Machine.{AreLaws, HasRoom, IsCallee, IsKept};
ghost use Rattle.td_vm.specs.Need.{room_below, level as levels};

use crate::level::{Callee, CodeStretch, Spare};
use std::sync::ledger::Ledger;
use td_core::outcome::Reason;
use td_ir::laws::{
    run_calls, run_fails, run_goes, run_loops, run_returns, run_turns as run_turned,
};
use td_ir::tables::{Parts, Routine};
use td_stream::stream::Stream;
use td_stream::words::Words;
use td_vm_step::activation::{Activation, BlockExit, Current, Effect, Level, TraceRoom};
use td_vm_step::slate::Slate;
use td_vm_step::step::step;
use td_vm_step::steps::{Counter, Steps};
use td_vm_step::tables::{frame_at, instruction_at, map_at, routine_at};

// The laws of run. Does nothing.
fn laws()
    ensures { AreLaws }
{
    run_goes();
    run_fails();
    run_returns();
    run_turned();
    run_calls();
    run_loops();
}

// One frame more.
fn push_frame(trace: &mut TraceRoom, parts: &Parts, site: u32, start: u32, reason: Reason)
    requires room { trace.old.count < length trace.old.frames.items }
    requires code { IsCode parts.now }
    requires site { site < length parts.now.sites }
    ensures frames { frames_of trace.new ≡ frames_of trace.old ++ outcomes.frame_at (place_of_site parts.now site start) reason ∷ [] }
    ensures count { trace.new.count ≡ trace.old.count + 1 }
    ensures kept { length trace.new.frames.items ≡ length trace.old.frames.items }
    ensures memory { vec_capacity trace.new.frames ≡ vec_capacity trace.old.frames }
{
    trace.frames[trace.count] = frame_at(parts, site, start, reason);
    trace.count += 1;
}

// So many registers from one on; where there are none, that register need not be there.
fn arguments(regs: &[u64], first: usize, count: usize) -> &[u64]
    requires { 0 < count → first + count ≤ length regs.now }
    ensures { result.now ≡ registers_from regs.now first count }
{
    if count == 0 {
        &regs[..0]
    } else {
        &regs[first..first + count]
    }
}

/// How many places a routine has: one for each cell, two for each buffer.
pub(crate) fn place_count(routine: &Routine) -> usize
    requires { length routine.now.buffers < 2 ^ 16 }
    ensures is { result ≡ routine.now.cells + 2 * length routine.now.buffers }
    ensures small { result ≤ 196605 }
{
    usize::from(routine.cells) + 2 * routine.buffers.len()
}

/// The registers of a routine that begins: its arguments, and zeros.
pub(crate) fn set_registers(mine: &mut [u64], args: &[u64])
    requires { length args.now ≤ length mine.old }
    ensures { mine.new ≡ args.now ++ replicate (length mine.old - length args.now) 0 }
{
    if mine.is_empty() {
        return;
    }
    let (front, rest) = mine.split_at_mut(args.len());
    front.copy_from_slice(args);
    rest.fill(0);
}

// The places of a callee's cells, by those of its caller.
fn set_cell_places(mine: &mut [usize], places: &[usize], map: &[u32])
    requires within { AreBelow (length places.now) map.now }
    requires fits { length mine.old ≡ length map.now }
    ensures { mine.new ≡ places_by places.now map.now }
{
    for i in 0..map.len() {
        mine[i] = places[map[i] as usize];
    }
}

// The places of the cells of a callee's buffers, by those of its caller, which has so many other cells.
fn set_buffer_places(mine: &mut [usize], places: &[usize], cells: usize, buffers: &[u32])
    requires within { (k : ℕ) → k < length buffers.now → cells + 2 * slice_index buffers.now k + 1 < length places.now }
    requires fits { length mine.old ≡ 2 * length buffers.now }
    ensures { mine.new ≡ places_by places.now (buffer_cells cells buffers.now) }
{
    for i in 0..buffers.len() {
        let at = cells + 2 * (buffers[i] as usize);
        mine[2 * i] = places[at];
        mine[2 * i + 1] = places[at + 1];
    }
}

// The places of a callee's cells and of its buffers', by those of its caller, by a cell map of which so many numbers are cells.
fn set_places(mine: &mut [usize], places: &[usize], cells: usize, map: &[u32], count: usize)
    requires fits { length mine.old ≡ count + 2 * (length map.now - count) }
    requires count { count ≤ length map.now }
    requires within { AreBelow (length places.now) (take count map.now) }
    requires buffers { (k : ℕ) → k < length (drop count map.now) → cells + 2 * slice_index (drop count map.now) k + 1 < length places.now }
    ensures { mine.new ≡ places_by places.now (own_cells cells count map.now) }
{
    let (front, behind) = mine.split_at_mut(count);
    set_cell_places(front, places, &map[..count]);
    set_buffer_places(behind, places, cells, &map[count..]);
}

// The places of a callee's cells and of its buffers', by those of the routine that calls it.
fn set_callee_places(level: &Level<'_, '_>, callee: Callee, routine: &Routine, mine: &mut [usize])
    requires caller { level.now.n < length level.now.code.parts.now.routines }
    requires map { callee.map < length level.now.code.parts.now.maps }
    requires routine { routine.now ≡ routine_of level.now.code.parts.now callee.routine }
    requires fits { length mine.old ≡ routine.now.cells + 2 * length routine.now.buffers }
    requires size { length (map_of level.now.code.parts.now callee.map) ≡ routine.now.cells + length routine.now.buffers }
    requires within { AreBelow (length level.now.places.now) (take routine.now.cells (map_of level.now.code.parts.now callee.map)) }
    requires buffers { (k : ℕ) → k < length (drop routine.now.cells (map_of level.now.code.parts.now callee.map))
        → (routine_of level.now.code.parts.now level.now.n).cells + 2 * slice_index (drop routine.now.cells (map_of level.now.code.parts.now callee.map)) k + 1 < length level.now.places.now }
    ensures { mine.new ≡ places_by level.now.places.now (cells_by level.now.code.parts.now level.now.n callee.routine callee.map) }
{
    // Most callees have none.
    if mine.is_empty() {
        return;
    }
    let cells = routine_at(level.code.parts, level.n).cells as usize;
    set_places(
        mine,
        level.places,
        cells,
        map_at(level.code.parts, callee.map),
        routine.cells as usize,
    );
}

/// Runs from an instruction on, to the end of the routine or of a loop's turn.
#[cycle(machine)]
pub fn run_block<W: Words, L: Ledger, C: Counter>(
    stretch: &CodeStretch<'_, '_, '_>,
    spare: &mut Spare<'_, '_>,
    regs: &mut [u64],
    slate: &mut Slate<'_, '_, '_>,
    act: &mut Activation,
    stream: &mut Stream<W>,
    steps: &mut Steps<L, C>,
) -> BlockExit
    requires room { HasRoom stretch.now.level.now spare.old regs.old slate.old }
    requires stretch { IsStretch stretch.now.level.now.code.parts.now stretch.now.level.now.n stretch.now.first stretch.now.to }
    requires whole { IsStream W.loads W.size stream.old }
    requires window { InWindow act.old stream.old }
    ensures later { Later W.loads W.reaches stream.old stream.new }
    ensures whole { IsStream W.loads W.size stream.new }
    ensures window { InWindow act.new stream.new }
    ensures outer { act.new.outer ≤ act.old.outer }
    ensures kept { IsKept spare.old spare.new }
    ensures traced { Traced result slate.new.trace.now (room_below levels stretch.now.level.now.code.parts.now stretch.now.level.now.n + 1) }
    ensures outside { WhenReturned result (looped stretch.now.level.now.code.parts.now stretch.now.first ≡ false) }
    ensures inside { WhenTurned result (looped stretch.now.level.now.code.parts.now stretch.now.first ≡ true) }
    ensures idle_turn { WhenTurned result (position stream.old ≡ position stream.new → IdleTurn stretch.now.level.now.code.parts.now stretch.now.level.now.n stretch.now.first) }
    ensures idle_return { WhenReturned result (position stream.old ≡ position stream.new → IdleReturn stretch.now.level.now.code.parts.now stretch.now.level.now.n stretch.now.first) }
    ensures end { WhenTurned result (end_of stream.new ≡ end_of stream.old) }
    ensures lent { IsLent slate.old slate.new }
    ensures held { Hold W.loads stream.old stream.new stretch.now.level.now.first slate.old slate.new }
    ensures same { Ran W.loads stream.old stream.new steps.old steps.new (λ b touched taken.
        block stretch.now.level.now.code.parts.now b stretch.now.level.now.n stretch.now.level.now.places.now stretch.now.first (state_of regs.old slate.old.cells.now act.old stream.old)
        ≡ exit_by (way_of result (state_of regs.new slate.new.cells.now act.new stream.new) (frames_of slate.new.trace.now)) touched taken) }
{
    laws();
    let level = stretch.level;
    let mut pc = stretch.first;
    'steps: while pc < stretch.to {
        steps.tick();
        let instruction = instruction_at(level.code.parts, pc);
        match step(
            level,
            Current { pc, instruction },
            regs,
            slate,
            act,
            stream,
            steps,
        ) {
            Effect::Goes(target) => pc = target,
            Effect::Fails { reason, site, pos } => {
                push_frame(slate.trace, level.code.parts, site, act.start, reason);
                return BlockExit::Failed {
                    reason,
                    pos: pos as u32,
                };
            }
            Effect::Calls {
                first: from,
                routine,
                map,
                site,
            } => {
                match call(
                    level,
                    Callee {
                        at: pc,
                        routine: routine as usize,
                        first: from as usize,
                        map: map as usize,
                    },
                    spare,
                    regs,
                    slate,
                    stream,
                    steps,
                ) {
                    BlockExit::Returned => pc += 1,
                    BlockExit::Turned => unreachable!(),
                    BlockExit::Failed { reason, pos } => {
                        push_frame(slate.trace, level.code.parts, site, act.start, reason);
                        return BlockExit::Failed { reason, pos };
                    }
                }
            }
            Effect::Returns => return BlockExit::Returned,
            Effect::Loops(target) => {
                let turns = CodeStretch {
                    level,
                    first: pc,
                    to: target,
                };
                match run_turns(&turns, spare, regs, slate, act, stream, steps) {
                    BlockExit::Turned => pc = target,
                    BlockExit::Returned => unreachable!(),
                    BlockExit::Failed { reason, pos } => return BlockExit::Failed { reason, pos },
                }
            }
            Effect::Turns(_) => return BlockExit::Turned,
        }
    }
    unreachable!()
}

// Runs all turns of the loop from a place on, behind which another stands. The `While` is run again after each turn, which is
// a step.
#[cycle(machine)]
fn run_turns<W: Words, L: Ledger, C: Counter>(
    stretch: &CodeStretch<'_, '_, '_>,
    spare: &mut Spare<'_, '_>,
    regs: &mut [u64],
    slate: &mut Slate<'_, '_, '_>,
    act: &mut Activation,
    stream: &mut Stream<W>,
    steps: &mut Steps<L, C>,
) -> BlockExit
    requires room { HasRoom stretch.now.level.now spare.old regs.old slate.old }
    requires place { IsIn stretch.now.level.now.code.parts.now stretch.now.level.now.n stretch.now.first }
    requires loops { shape_at (shapes_of stretch.now.level.now.code.parts.now) stretch.now.first ≡ While stretch.now.to }
    requires whole { IsStream W.loads W.size stream.old }
    requires window { InWindow act.old stream.old }
    ensures later { Later W.loads W.reaches stream.old stream.new }
    ensures whole { IsStream W.loads W.size stream.new }
    ensures window { InWindow act.new stream.new }
    ensures outer { act.new.outer ≤ act.old.outer }
    ensures kept { IsKept spare.old spare.new }
    ensures traced { Traced result slate.new.trace.now (room_below levels stretch.now.level.now.code.parts.now stretch.now.level.now.n + 1) }
    ensures no_return { NotReturned result }
    ensures end { WhenTurned result (end_of stream.new ≡ end_of stream.old) }
    ensures lent { IsLent slate.old slate.new }
    ensures held { Hold W.loads stream.old stream.new stretch.now.level.now.first slate.old slate.new }
    ensures same { Ran W.loads stream.old stream.new steps.old steps.new (λ b touched taken. (behind : State → Exit) →
        turns (suc (end_of stream.old - position stream.old)) (block stretch.now.level.now.code.parts.now b stretch.now.level.now.n stretch.now.level.now.places.now (stretch.now.first + 1)) behind (state_of regs.old slate.old.cells.now act.old stream.old)
        ≡ loop_exit result behind (state_of regs.new slate.new.cells.now act.new stream.new) (frames_of slate.new.trace.now) touched taken) }
{
    let first = stretch.first + 1;
    let body = CodeStretch {
        level: stretch.level,
        first,
        to: stretch.to,
    };
    'turns: while stream.need(1) {
        match run_block(&body, spare, regs, slate, act, stream, steps) {
            BlockExit::Turned => steps.tick(),
            BlockExit::Returned => unreachable!(),
            BlockExit::Failed { reason, pos } => return BlockExit::Failed { reason, pos },
        }
    }
    BlockExit::Turned
}

// Runs a callee, to its return.
#[cycle(machine)]
fn call<W: Words, L: Ledger, C: Counter>(
    level: &Level<'_, '_>,
    callee: Callee,
    spare: &mut Spare<'_, '_>,
    regs: &[u64],
    slate: &mut Slate<'_, '_, '_>,
    stream: &mut Stream<W>,
    steps: &mut Steps<L, C>,
) -> BlockExit
    requires room { HasRoom level.now spare.old regs.now slate.old }
    requires callee { IsCallee level.now.code.parts.now level.now.n callee.at callee.routine callee.first callee.map }
    requires whole { IsStream W.loads W.size stream.old }
    ensures later { Later W.loads W.reaches stream.old stream.new }
    ensures whole { IsStream W.loads W.size stream.new }
    ensures end { end_of stream.new ≡ end_of stream.old }
    ensures kept { IsKept spare.old spare.new }
    ensures traced { Traced result slate.new.trace.now (room_below levels level.now.code.parts.now level.now.n) }
    ensures no_turn { NotTurned result }
    ensures idle { WhenReturned result (position stream.old ≡ position stream.new → MayBeEmpty (shapes_of level.now.code.parts.now) (lengths_of level.now.code.parts.now) (suc callee.routine) callee.routine) }
    ensures lent { IsLent slate.old slate.new }
    ensures held { Hold W.loads stream.old stream.new level.now.first slate.old slate.new }
    ensures same { (start outer : ℕ) → Ran W.loads stream.old stream.new steps.old steps.new (λ b touched taken.
        block level.now.code.parts.now b callee.routine (places_by level.now.places.now (cells_by level.now.code.parts.now level.now.n callee.routine callee.map)) (first_of level.now.code.parts.now callee.routine)
        (entered (routine_of level.now.code.parts.now callee.routine) (registers_from regs.now callee.first (routine_of level.now.code.parts.now callee.routine).params)
        (record { regs = regs.now; cells = slate.old.cells.now; start = start; pos = position stream.old; end = end_of stream.old; outer = outer }))
        ≡ exit_by (call_way result (position stream.new) slate.new.cells.now (frames_of slate.new.trace.now)) touched taken) }
{
    let routine = routine_at(level.code.parts, callee.routine);
    let from = level.code.begins[callee.routine];
    let to = level.code.begins[callee.routine + 1];
    let registers = &mut *spare.registers;
    let places = &mut *spare.places;
    let (mine, rest) = registers.split_at_mut(routine.registers as usize);
    let (mine_places, rest_places) = places.split_at_mut(place_count(routine));
    set_registers(mine, arguments(regs, callee.first, routine.params as usize));
    set_callee_places(level, callee, routine, mine_places);
    let end = stream.end();
    let mut act = Activation {
        start: stream.pos(),
        outer: end,
    };
    let inner = Level {
        code: level.code,
        n: callee.routine,
        first: level.first,
        places: mine_places,
    };
    let mut free = Spare {
        places: rest_places,
        registers: rest,
    };
    let whole = CodeStretch {
        level: &inner,
        first: from,
        to,
    };
    let exit = run_block(&whole, &mut free, mine, slate, &mut act, stream, steps);
    stream.widen(end);
    exit
}
