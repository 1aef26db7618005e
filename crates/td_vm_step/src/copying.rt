//! The instruction that copies bytes.

ghost use Rattle.std.specs.Prelude.{◌≡◌, ℕ, ◌+◌, ◌-◌, ◌*◌, ◌/◌, ◌<◌, ◌≤◌, List, length, slice_index};
ghost use Rattle.td_stream.specs.Copies.{rooms_of};
ghost use Rattle.td_stream.specs.StreamInvariant.{IsStream, Later, end_of};
ghost use Rattle.td_ir.specs.Tables.{routine_of};
ghost use Rattle.td_vm_step.specs.Stepping.{state_of, flow_of, effect_of, Ran, HasPlaces, OnOrOut, IsSmall, IsLent, Hold, copied_to};

use crate::activation::{Activation, Effect, Level};
use crate::slate::Slate;
use crate::steps::{Counter, Steps};
use crate::tables::routine_at;
use std::sync::ledger::Ledger;
use td_core::outcome::Reason;
use td_stream::stream::Stream;
use td_stream::words::Words;

// The number of a buffer, by the place of the first of its cells.
fn number_of(place: usize, first: usize) -> usize
    requires { first ≤ place }
    ensures { result ≡ (place - first) / 2 }
{
    (place - first) / 2
}

// The room of a routine's buffer.
fn room_of(level: &Level<'_, '_>, buffer: u16) -> u32
    requires routine { level.now.n < length level.now.code.parts.now.routines }
    requires buffer { buffer < length (routine_of level.now.code.parts.now level.now.n).buffers }
    ensures { result ≡ slice_index (routine_of level.now.code.parts.now level.now.n).buffers buffer }
{
    let routine = routine_at(level.code.parts, level.n);
    routine.buffers.as_slice()[buffer as usize]
}

// The place of the first of its two cells.
fn place_of(level: &Level<'_, '_>, buffer: u16) -> usize
    requires routine { level.now.n < length level.now.code.parts.now.routines }
    requires there { (routine_of level.now.code.parts.now level.now.n).cells + 2 * buffer < length level.now.places.now }
    ensures { result ≡ slice_index level.now.places.now ((routine_of level.now.code.parts.now level.now.n).cells + 2 * buffer) }
{
    let routine = routine_at(level.code.parts, level.n);
    level.places[usize::from(routine.cells) + 2 * usize::from(buffer)]
}

/// The operands of a copy: how many bytes it takes, the number of its buffer, and the site of its frame.
#[derive(Clone, Copy)]
pub struct CopyOperands {
    pub size: u64,
    pub buffer: u16,
    pub site: u32,
}

/// Takes so many bytes, and puts the first ones, up to its room, into a buffer of routine n.
pub fn copy<W: Words, L: Ledger, C: Counter>(
    level: &Level<'_, '_>,
    operands: CopyOperands,
    next: usize,
    slate: &mut Slate<'_, '_, '_>,
    act: &Activation,
    stream: &mut Stream<W>,
    steps: &mut Steps<L, C>,
) -> Effect
    requires routine { level.now.n < length level.now.code.parts.now.routines }
    requires buffer { operands.buffer < length (routine_of level.now.code.parts.now level.now.n).buffers }
    requires places { HasPlaces level.now.code.parts.now level.now.n level.now.places.now level.now.first (length slate.old.cells.now) (rooms_of slate.old.copies.now) }
    requires whole { IsStream W.loads W.size stream.old }
    ensures later { Later W.loads W.reaches stream.old stream.new }
    ensures whole { IsStream W.loads W.size stream.new }
    ensures end { end_of stream.new ≡ end_of stream.old }
    ensures on { OnOrOut next operands.site result }
    ensures small { IsSmall result }
    ensures lent { IsLent slate.old slate.new }
    ensures trace { slate.new.trace.now ≡ slate.old.trace.now }
    ensures held { Hold W.loads stream.old stream.new level.now.first slate.old slate.new }
    ensures same { Ran W.loads stream.old stream.new steps.old steps.new (λ b touched taken. (regs : List ℕ) →
        copied_to level.now.code.parts.now level.now.n level.now.places.now next operands.size operands.buffer operands.site (state_of regs slate.old.cells.now act.now stream.old)
        ≡ effect_of (flow_of result (state_of regs slate.old.cells.now act.now stream.old) (state_of regs slate.new.cells.now act.now stream.new)) touched (1 + taken)) }
{
    if operands.size > u64::from(stream.end() - stream.pos()) {
        return Effect::Fails {
            reason: Reason::NotEnough,
            site: operands.site,
            pos: act.start as u64,
        };
    }
    let size = operands.size as u32;
    let count = size.min(room_of(level, operands.buffer));
    let place = place_of(level, operands.buffer);
    let start = stream.pos();
    stream.copy_to(count, &mut slate.copies[number_of(place, level.first)]);
    stream.skip(size - count);
    slate.cells[place] = u64::from(start);
    slate.cells[place + 1] = u64::from(count);
    steps.add(count);
    Effect::Goes(next)
}
