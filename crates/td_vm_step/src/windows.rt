//! Instructions that take bytes unseen, or open a window.

ghost use Rattle.std.specs.Prelude.{◌≡◌, ℕ, ◌+◌, ◌≤◌, List};
ghost use Rattle.td_stream.specs.StreamInvariant.{IsStream, Later, position, end_of};
ghost use Rattle.td_ir.specs.Flow as flow;
ghost use Rattle.td_vm_step.specs.Stepping.{state_of, flow_of, effect_of, Ran, InWindow, WhenGoes, OnOrOut, IsSmall};

use crate::activation::{Activation, Effect};
use td_core::outcome::Reason;
use td_stream::stream::Stream;
use td_stream::words::Words;

/// Takes n bytes, none of which is looked at.
pub fn skip<W: Words>(
    n: u64,
    site: u32,
    next: usize,
    act: &Activation,
    stream: &mut Stream<W>,
) -> Effect
    requires whole { IsStream W.loads W.size stream.old }
    ensures later { Later W.loads W.reaches stream.old stream.new }
    ensures whole { IsStream W.loads W.size stream.new }
    ensures end { end_of stream.new ≡ end_of stream.old }
    ensures on { OnOrOut next site result }
    ensures small { IsSmall result }
    ensures takes { WhenGoes result (position stream.old + n ≤ position stream.new) }
    ensures same { (k : ℕ) → Ran W.loads stream.old stream.new k k (λ b touched taken. (regs cells : List ℕ) →
        flow.skipped next n site (state_of regs cells act.now stream.old)
        ≡ effect_of (flow_of result (state_of regs cells act.now stream.old) (state_of regs cells act.now stream.new)) touched (1 + taken)) }
{
    if n > u64::from(stream.end() - stream.pos()) {
        return Effect::Fails {
            reason: Reason::NotEnough,
            site,
            pos: act.start as u64,
        };
    }
    stream.skip(n as u32);
    Effect::Goes(next)
}

/// Opens a window of n bytes.
pub fn narrow<W: Words>(
    n: u64,
    site: u32,
    next: usize,
    act: &mut Activation,
    stream: &mut Stream<W>,
) -> Effect
    requires whole { IsStream W.loads W.size stream.old }
    requires window { InWindow act.old stream.old }
    ensures later { Later W.loads W.reaches stream.old stream.new }
    ensures whole { IsStream W.loads W.size stream.new }
    ensures window { InWindow act.new stream.new }
    ensures outer { act.new.outer ≤ act.old.outer }
    ensures on { OnOrOut next site result }
    ensures small { IsSmall result }
    ensures pos { position stream.new ≡ position stream.old }
    ensures end { WhenGoes result (position stream.old + n ≤ end_of stream.new) }
    ensures same { (k : ℕ) → Ran W.loads stream.old stream.new k k (λ b touched taken. (regs cells : List ℕ) →
        flow.narrowed next n site (state_of regs cells act.old stream.old)
        ≡ effect_of (flow_of result (state_of regs cells act.old stream.old) (state_of regs cells act.new stream.new)) touched (1 + taken)) }
{
    if n > u64::from(stream.end() - stream.pos()) {
        return Effect::Fails {
            reason: Reason::NotEnough,
            site,
            pos: act.start as u64,
        };
    }
    act.outer = stream.end();
    stream.narrow(n as u32);
    Effect::Goes(next)
}
