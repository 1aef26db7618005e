//! One instruction.

ghost use Rattle.std.specs.Prelude.{◌≡◌, ◌+◌, ◌^◌, ◌<◌, ◌≤◌, length};
ghost use Rattle.td_verify.specs.Shape.{shape};
ghost use Rattle.td_stream.specs.Copies.{rooms_of};
ghost use Rattle.td_stream.specs.StreamInvariant.{IsStream, Later, position, end_of};
ghost use Rattle.td_ir.specs.WellFormed.{IsCode};
ghost use Rattle.td_ir.specs.Flow.{effect};
ghost use Rattle.td_verify_runs.specs.Moves.{Ends, least};
ghost use Rattle.td_vm_step.specs.Stepping.{state_of, flow_of, effect_of, Ran, InWindow, IsFine, HasPlaces, IsLent, Hold, LeadsTo, HasSite, IsSmall, WhenGoes};

use crate::activation::{Activation, Current, Effect, Level};
use crate::copying::{CopyOperands, copy};
use crate::reads::{FetchOperands, fetch, zeros, zeroterm};
use crate::slate::Slate;
use crate::steps::{Counter, Steps};
use crate::tables::set_at;
use crate::values::{bit, bits, is_member, operated, reason_of};
use crate::windows::{narrow, skip};
use std::sync::ledger::Ledger;
use td_core::outcome::Reason;
use td_ir::instructions::Instr;
use td_stream::stream::Stream;
use td_stream::words::Words;

/// Runs an instruction of routine n, whose cells lie among the first ones and its buffers' behind these. A call and a loop
/// are left to the caller, and so is the instruction's own step.
pub fn step<W: Words, L: Ledger, C: Counter>(
    level: &Level<'_, '_>,
    current: Current<'_>,
    regs: &mut [u64],
    slate: &mut Slate<'_, '_, '_>,
    act: &mut Activation,
    stream: &mut Stream<W>,
    steps: &mut Steps<L, C>,
) -> Effect
    requires code { IsCode level.now.code.parts.now }
    requires routine { level.now.n < length level.now.code.parts.now.routines }
    requires fine { IsFine level.now.code.parts.now level.now.n (length regs.old) current.instruction.now }
    requires places { HasPlaces level.now.code.parts.now level.now.n level.now.places.now level.now.first (length slate.old.cells.now) (rooms_of slate.old.copies.now) }
    requires next { current.pc + 1 < 2 ^ 64 }
    requires whole { IsStream W.loads W.size stream.old }
    requires window { InWindow act.old stream.old }
    ensures later { Later W.loads W.reaches stream.old stream.new }
    ensures whole { IsStream W.loads W.size stream.new }
    ensures window { InWindow act.new stream.new }
    ensures outer { act.new.outer ≤ act.old.outer }
    ensures leads { LeadsTo result current.entry.pc current.entry.instruction.now }
    ensures site { HasSite result (length level.now.code.parts.now.sites) }
    ensures small { IsSmall result }
    ensures takes { WhenGoes result (position stream.old + least (shape current.entry.instruction.now) ≤ position stream.new) }
    ensures end { WhenGoes result (Ends (shape current.entry.instruction.now) (position stream.old) (end_of stream.old) (end_of stream.new)) }
    ensures lent { IsLent slate.old slate.new }
    ensures trace { slate.new.trace.now ≡ slate.old.trace.now }
    ensures held { Hold W.loads stream.old stream.new level.now.first slate.old slate.new }
    ensures same { Ran W.loads stream.old stream.new steps.old steps.new (λ b touched taken.
        effect level.now.code.parts.now level.now.n b level.now.places.now current.entry.pc current.entry.instruction.now (state_of regs.old slate.old.cells.now act.old stream.old)
        ≡ effect_of (flow_of result (state_of regs.old slate.old.cells.now act.old stream.old) (state_of regs.new slate.new.cells.now act.new stream.new)) touched (1 + taken)) }
{
    match *current.instruction {
        Instr::Const { into, value } => {
            regs[into as usize] = value;
            Effect::Goes(current.pc + 1)
        }
        Instr::Member { into, source, set } => {
            regs[into as usize] = bit(is_member(
                regs[source as usize],
                set_at(level.code.parts, set as usize),
            ));
            Effect::Goes(current.pc + 1)
        }
        Instr::Op {
            into,
            operator,
            left,
            right,
        } => {
            regs[into as usize] = operated(operator, regs[left as usize], regs[right as usize]);
            Effect::Goes(current.pc + 1)
        }
        Instr::Bits {
            into,
            source,
            low,
            count,
        } => {
            regs[into as usize] = bits(regs[source as usize], low, count);
            Effect::Goes(current.pc + 1)
        }
        Instr::Pos { into } => {
            regs[into as usize] = u64::from(act.start);
            Effect::Goes(current.pc + 1)
        }
        Instr::Jump { target } => Effect::Goes(target as usize),
        Instr::JumpIf { test, target } => {
            if regs[test as usize] == 0 {
                Effect::Goes(current.pc + 1)
            } else {
                Effect::Goes(target as usize)
            }
        }
        Instr::JumpUnless { test, target } => {
            if regs[test as usize] == 0 {
                Effect::Goes(target as usize)
            } else {
                Effect::Goes(current.pc + 1)
            }
        }
        Instr::Call {
            first,
            routine,
            map,
            site,
        } => Effect::Calls {
            first,
            routine,
            map,
            site,
        },
        Instr::Return => Effect::Returns,
        Instr::Fetch {
            into,
            order,
            width,
            site,
        } => fetch(
            FetchOperands {
                into,
                order,
                width,
                site,
            },
            current.pc + 1,
            regs,
            act,
            stream,
        ),
        Instr::SkipK { bytes, site } => skip(bytes, site, current.pc + 1, act, stream),
        Instr::Skip { size, site } => skip(regs[size as usize], site, current.pc + 1, act, stream),
        Instr::Rest => {
            stream.skip(stream.end() - stream.pos());
            Effect::Goes(current.pc + 1)
        }
        Instr::Zeros { site } => zeros(site, current.pc + 1, act, stream, steps),
        Instr::Zeroterm { bound, width, site } => {
            zeroterm(
                regs[bound as usize],
                width,
                site,
                current.pc + 1,
                act,
                stream,
                steps,
            )
        }
        Instr::NarrowK { bytes, site } => narrow(bytes, site, current.pc + 1, act, stream),
        Instr::Narrow { size, site } => narrow(
            regs[size as usize],
            site,
            current.pc + 1,
            act,
            stream,
        ),
        Instr::Divides { size, step, site } => {
            if regs[size as usize] % step == 0 {
                Effect::Goes(current.pc + 1)
            } else {
                Effect::Fails {
                    reason: Reason::ListSize,
                    site,
                    pos: act.start as u64,
                }
            }
        }
        Instr::While { target } => Effect::Loops(target as usize),
        Instr::Again { target } => Effect::Turns(target as usize),
        Instr::Widen { site } => {
            if stream.pos() == stream.end() {
                stream.widen(act.outer);
                Effect::Goes(current.pc + 1)
            } else {
                Effect::Fails {
                    reason: Reason::ListSize,
                    site,
                    pos: act.start as u64,
                }
            }
        }
        Instr::Fail { reason, site } => Effect::Fails {
            reason: reason_of(reason),
            site,
            pos: act.start as u64,
        },
        Instr::Get { into, cell } => {
            regs[into as usize] = slate.cells[level.places[cell as usize]];
            Effect::Goes(current.pc + 1)
        }
        Instr::Set { source, cell } => {
            slate.cells[level.places[cell as usize]] = regs[source as usize];
            Effect::Goes(current.pc + 1)
        }
        Instr::Mark => {
            act.start = stream.pos();
            Effect::Goes(current.pc + 1)
        }
        Instr::Copy { size, buffer, site } => copy(
            level,
            CopyOperands {
                size: regs[size as usize],
                buffer,
                site,
            },
            current.pc + 1,
            slate,
            act,
            stream,
            steps,
        ),
        Instr::Left { into } => {
            regs[into as usize] = u64::from(stream.end() - stream.pos());
            Effect::Goes(current.pc + 1)
        }
    }
}
