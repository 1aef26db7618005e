//! Instructions that look at bytes.

ghost use Rattle.std.specs.Prelude.{◌≡◌, ℕ, ◌+◌, ◌-◌, ◌*◌, ◌/◌, ◌<◌, ◌≤◌, Bool, List, length, IfSome};
ghost use Rattle.td_num.specs.Numbers.{places_from};
ghost use Rattle.td_num.specs.Lists.{first_where, looked_at};
ghost use Rattle.td_stream.specs.Loads.{Carries};
ghost use Rattle.td_stream.specs.StreamInvariant.{IsStream, Later, Moves, position, end_of, layout_of, loads_of};
ghost use Rattle.td_verify.specs.Operands.{IsWidth};
ghost use Rattle.td_ir.specs.Values as values;
ghost use Rattle.td_ir.specs.Values.{numbers_from};
ghost use Rattle.td_ir.specs.Flow as flow;
ghost use Rattle.td_vm_step.specs.Stepping.{state_of, flow_of, effect_of, Ran, WhenGoes, OnOrOut, IsSmall, sought};

use crate::activation::{Activation, Effect};
use crate::steps::{Counter, Steps};
use std::sync::ledger::Ledger;
use td_core::outcome::Reason;
use td_ir::constants::LITTLE_ENDIAN;
use td_num::number::ByteOrder;
use td_stream::stream::Stream;
use td_stream::words::Words;

fn order_of(order: u8) -> ByteOrder
    ensures { result ≡ values.order_of order }
{
    if order == LITTLE_ENDIAN {
        ByteOrder::LittleEndian
    } else {
        ByteOrder::BigEndian
    }
}

/// The operands of a fetch: the register that it goes to, the order and the number of its bytes, and the site of its frame.
#[derive(Clone, Copy)]
pub struct FetchOperands {
    pub into: u16,
    pub order: u8,
    pub width: u16,
    pub site: u32,
}

/// Fetches a number into a register.
pub fn fetch<W: Words>(
    operands: FetchOperands,
    next: usize,
    regs: &mut [u64],
    act: &Activation,
    stream: &mut Stream<W>,
) -> Effect
    requires register { operands.into < length regs.old }
    requires width { IsWidth operands.width }
    requires whole { IsStream W.loads W.size stream.old }
    ensures later { Later W.loads W.reaches stream.old stream.new }
    ensures whole { IsStream W.loads W.size stream.new }
    ensures end { end_of stream.new ≡ end_of stream.old }
    ensures on { OnOrOut next operands.site result }
    ensures small { IsSmall result }
    ensures takes { WhenGoes result (position stream.old + operands.width ≤ position stream.new) }
    ensures same { (n : ℕ) → Ran W.loads stream.old stream.new n n (λ b touched taken. (cells : List ℕ) →
        flow.fetched b next operands.into operands.order operands.width operands.site (state_of regs.old cells act.now stream.old)
        ≡ effect_of (flow_of result (state_of regs.old cells act.now stream.old) (state_of regs.new cells act.now stream.new)) touched (1 + taken)) }
{
    let count = u32::from(operands.width);
    if !stream.need(count) {
        return Effect::Fails {
            reason: Reason::NotEnough,
            site: operands.site,
            pos: act.start as u64,
        };
    }
    regs[operands.into as usize] = stream.take_bytes(order_of(operands.order), count);
    Effect::Goes(next)
}

fn is_sought(zero: bool, element: u64) -> bool
    ensures { result ≡ sought zero element }
{
    if zero { element == 0 } else { element != 0 }
}

// Looks at elements of so many bytes, at most n of them, up to one that is zero, or up to one that isn't. Answers its place
// among them. Each is a step.
fn seek<W: Words, L: Ledger, C: Counter>(
    width: u16,
    n: u32,
    zero: bool,
    stream: &mut Stream<W>,
    steps: &mut Steps<L, C>,
) -> Option<u32>
    requires width { IsWidth width }
    requires fit { n * width ≤ end_of stream.old - position stream.old }
    requires whole { IsStream W.loads W.size stream.old }
    ensures moves { Moves W.loads W.size W.reaches stream.old stream.new
        (position stream.old + looked_at result n * width) (end_of stream.old) (places_from (position stream.old) (looked_at result n * width)) }
    ensures counted { steps.new ≡ steps.old + looked_at result n }
    ensures first { (b : List ℕ) → Carries (layout_of stream.old) b (loads_of W.loads stream.new)
        → result ≡ first_where (sought zero) (numbers_from b (position stream.old) width n) }
    ensures within { IfSome result (λ k. k < n) }
{
    let count = u32::from(width);
    for k in 0..n {
        steps.tick();
        let element = stream.take_bytes(ByteOrder::LittleEndian, count);
        if is_sought(zero, element) {
            return Some(k);
        }
    }
    None
}

/// Looks at all bytes that are left, up to one that isn't zero.
pub fn zeros<W: Words, L: Ledger, C: Counter>(
    site: u32,
    next: usize,
    act: &Activation,
    stream: &mut Stream<W>,
    steps: &mut Steps<L, C>,
) -> Effect
    requires whole { IsStream W.loads W.size stream.old }
    ensures later { Later W.loads W.reaches stream.old stream.new }
    ensures whole { IsStream W.loads W.size stream.new }
    ensures end { end_of stream.new ≡ end_of stream.old }
    ensures on { OnOrOut next site result }
    ensures small { IsSmall result }
    ensures same { Ran W.loads stream.old stream.new steps.old steps.new (λ b touched taken. (regs cells : List ℕ) →
        flow.zeros b next site (state_of regs cells act.now stream.old)
        ≡ effect_of (flow_of result (state_of regs cells act.now stream.old) (state_of regs cells act.now stream.new)) touched (1 + taken)) }
{
    let start = stream.pos();
    let left = stream.end() - start;
    match seek(1, left, false, stream, steps) {
        None => Effect::Goes(next),
        Some(k) => Effect::Fails {
            reason: Reason::Padding,
            site,
            pos: (start + k) as u64,
        },
    }
}

/// Looks at elements up to one that is zero, within a bound in bytes and what is left.
pub fn zeroterm<W: Words, L: Ledger, C: Counter>(
    bound: u64,
    width: u16,
    site: u32,
    next: usize,
    act: &Activation,
    stream: &mut Stream<W>,
    steps: &mut Steps<L, C>,
) -> Effect
    requires width { IsWidth width }
    requires whole { IsStream W.loads W.size stream.old }
    ensures later { Later W.loads W.reaches stream.old stream.new }
    ensures whole { IsStream W.loads W.size stream.new }
    ensures end { end_of stream.new ≡ end_of stream.old }
    ensures on { OnOrOut next site result }
    ensures small { IsSmall result }
    ensures takes { WhenGoes result (position stream.old + width ≤ position stream.new) }
    ensures same { Ran W.loads stream.old stream.new steps.old steps.new (λ b touched taken. (regs cells : List ℕ) →
        flow.zeroterm b next site width (bound / width) ((end_of stream.old - position stream.old) / width) (state_of regs cells act.now stream.old)
        ≡ effect_of (flow_of result (state_of regs cells act.now stream.old) (state_of regs cells act.now stream.new)) touched (1 + taken)) }
{
    let most = bound / u64::from(width);
    let room = (stream.end() - stream.pos()) / u32::from(width);
    let within = most <= u64::from(room);
    let n = if within { most as u32 } else { room };
    match seek(width, n, true, stream, steps) {
        Some(_) => Effect::Goes(next),
        None => Effect::Fails {
            reason: if within {
                Reason::Constraint
            } else {
                Reason::NotEnough
            },
            site,
            pos: act.start as u64,
        },
    }
}
