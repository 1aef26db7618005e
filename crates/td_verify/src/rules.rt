//! Each rule at one instruction.

ghost use Rattle.std.specs.Prelude.{◌≡◌, ℕ, ◌+◌, ◌-◌, ◌*◌, ◌^◌, ◌<◌, ◌≤◌, ◌↔◌, length, IsTrue, List, Option, slice_index};
ghost use Rattle.td_verify.specs.Brackets.{opened, innermost, in_window, in_loop};
ghost use Rattle.td_verify.specs.Contexts.{AreContexts};
ghost use Rattle.td_verify.specs.Marks.{IsEmptyBy};
ghost use Rattle.td_verify.specs.Flat.{IsFlat};
ghost use Rattle.td_verify.specs.Rules.{IsJump, IsAgain, IsLoop, LeadsWell, MayBeLast, KeepsTarget, calls_deep, CallsWell, StandsWell, TurnsBusy, IsOutside, KeepsNesting, own_weight};
ghost use Rattle.td_verify.specs.Rules as rules;
ghost use Rattle.td_verify.specs.declared.bracket.Bracket.{Bracket};

use crate::bracket::{self, Innermost};
use crate::contexts::{context, read};
use crate::shape::Shape;
use crate::ways::mark;
use td_core::limits::MOST_DEPTH;

fn same_bracket(a: bracket::Bracket, b: bracket::Bracket) -> bool
    ensures { IsTrue result ↔ (a ≡ b) }
{
    match (a, b) {
        (
            bracket::Bracket::Window { at: o, bytes: k },
            bracket::Bracket::Window { at: p, bytes: m },
        ) => o == p && k == m,
        (bracket::Bracket::Loop { at: o }, bracket::Bracket::Loop { at: p }) => o == p,
        (bracket::Bracket::Window { .. }, bracket::Bracket::Loop { .. }) => false,
        (bracket::Bracket::Loop { .. }, bracket::Bracket::Window { .. }) => false,
    }
}

fn same(a: Innermost, b: Innermost) -> bool
    ensures { IsTrue result ↔ (a ≡ b) }
{
    match (a, b) {
        (Innermost::Outside, Innermost::Outside) => true,
        (Innermost::Broken, Innermost::Broken) => true,
        (Innermost::Within(x), Innermost::Within(y)) => same_bracket(x, y),
        (Innermost::Outside, Innermost::Broken) => false,
        (Innermost::Outside, Innermost::Within(_)) => false,
        (Innermost::Broken, Innermost::Outside) => false,
        (Innermost::Broken, Innermost::Within(_)) => false,
        (Innermost::Within(_), Innermost::Outside) => false,
        (Innermost::Within(_), Innermost::Broken) => false,
    }
}

fn is_again(shape: Shape) -> bool
    ensures { IsTrue result ↔ IsAgain shape }
{
    matches!(shape, Shape::Again(_))
}

fn may_be_last(shape: Shape) -> bool
    ensures { IsTrue result ↔ MayBeLast shape }
{
    match shape {
        Shape::Return => true,
        Shape::Fail => true,
        Shape::Jump(_) => true,
        _ => false,
    }
}

fn is_jump(shapes: &[Shape], contexts: &[Innermost], end: usize, at: usize, t: usize) -> bool
    requires at { at < end }
    requires end { end ≤ length shapes.now }
    requires known { length contexts.now ≡ length shapes.now + 1 }
    requires contexts { AreContexts shapes.now contexts.now (length shapes.now + 1) }
    ensures { IsTrue result ↔ IsJump shapes.now end at t }
{
    if at < t {
        if t < end {
            same(context(contexts, t), context(contexts, at))
        } else {
            false
        }
    } else {
        false
    }
}

fn is_loop(shapes: &[Shape], contexts: &[Innermost], end: usize, at: usize, t: usize) -> bool
    requires at { at < end }
    requires end { end ≤ length shapes.now }
    requires known { length contexts.now ≡ length shapes.now + 1 }
    requires contexts { AreContexts shapes.now contexts.now (length shapes.now + 1) }
    ensures { IsTrue result ↔ IsLoop shapes.now end at t }
{
    at + 1 < t
        && t <= end
        && is_again(read(shapes, t - 1))
        && same(
            context(contexts, t - 1),
            Innermost::Within(bracket::Bracket::Loop { at }),
        )
}

fn leads_well(shapes: &[Shape], contexts: &[Innermost], end: usize, at: usize, shape: Shape) -> bool
    requires at { at < end }
    requires end { end ≤ length shapes.now }
    requires known { length contexts.now ≡ length shapes.now + 1 }
    requires contexts { AreContexts shapes.now contexts.now (length shapes.now + 1) }
    ensures { IsTrue result ↔ LeadsWell shapes.now end at shape }
{
    match shape {
        Shape::Jump(t) => is_jump(shapes, contexts, end, at, t),
        Shape::Branch(t) => is_jump(shapes, contexts, end, at, t),
        Shape::While(t) => is_loop(shapes, contexts, end, at, t),
        Shape::Again(t) => same(
            context(contexts, at),
            Innermost::Within(bracket::Bracket::Loop { at: t }),
        ),
        _ => true,
    }
}

/// Rule V1.
pub(crate) fn keeps_target(shapes: &[Shape], contexts: &[Innermost], end: usize, at: usize) -> bool
    requires at { at < end }
    requires end { end ≤ length shapes.now }
    requires known { length contexts.now ≡ length shapes.now + 1 }
    requires contexts { AreContexts shapes.now contexts.now (length shapes.now + 1) }
    ensures { IsTrue result ↔ KeepsTarget shapes.now end at }
{
    let shape = read(shapes, at);
    leads_well(shapes, contexts, end, at, shape) && (at + 1 != end || may_be_last(shape))
}

/// Rule V3.
pub(crate) fn calls_well(depths: &[u64], n: usize, shape: Shape) -> bool
    requires { length depths.now ≡ n }
    ensures { IsTrue result ↔ CallsWell depths.now n shape }
{
    match shape {
        Shape::Call(m) => m < n && depths[m] < MOST_DEPTH,
        _ => true,
    }
}

/// The depth of the routine that is called, 0 where none is.
pub fn depth_of(depths: &[u64], shape: Shape) -> u64
    requires { CallsWell depths.now (length depths.now) shape }
    ensures { result ≡ calls_deep depths.now shape }
{
    match shape {
        Shape::Call(m) => depths[m],
        _ => 0,
    }
}

fn holds_window(now: Innermost) -> bool
    ensures { (o : Option (List Bracket)) → IsFlat o → now ≡ innermost o → result ≡ in_window o }
{
    match now {
        Innermost::Within(_) => true,
        Innermost::Outside => false,
        Innermost::Broken => false,
    }
}

fn holds_loop(now: Innermost) -> bool
    ensures { (o : Option (List Bracket)) → IsFlat o → now ≡ innermost o → result ≡ in_loop o }
{
    match now {
        Innermost::Within(bracket::Bracket::Loop { .. }) => true,
        Innermost::Within(bracket::Bracket::Window { .. }) => false,
        Innermost::Outside => false,
        Innermost::Broken => false,
    }
}

fn stands_well(now: Innermost, shape: Shape) -> bool
    ensures { (o : Option (List Bracket)) → IsFlat o → now ≡ innermost o → (IsTrue result ↔ StandsWell o shape) }
{
    match shape {
        Shape::Open { .. } => !holds_window(now),
        Shape::Close => holds_window(now) && !holds_loop(now),
        Shape::While(_) => holds_window(now) && !holds_loop(now),
        Shape::Return => !holds_window(now) && !holds_loop(now),
        _ => true,
    }
}

/// What an instruction weighs where it stands.
pub(crate) fn cost(weights: &[u64], now: Innermost, shape: Shape) -> u64
    requires small { (m : ℕ) → slice_index weights.now m ≤ 2 ^ 40 }
    requires own { own_weight weights.now shape ≤ 1 + 2 ^ 40 }
    ensures { (o : Option (List Bracket)) → IsFlat o → now ≡ innermost o → result ≡ rules.cost weights.now o shape }
{
    let own = match shape {
        Shape::Straight { weight, .. } => weight,
        Shape::Call(m) => if m < weights.len() { 1 + weights[m] } else { 1 },
        Shape::While(_) => 3,
        Shape::Again(_) => 3,
        _ => 1,
    };
    let twice = match shape {
        Shape::While(_) => false,
        Shape::Again(_) => false,
        _ => holds_loop(now),
    };
    if twice { 2 * own } else { own }
}

/// Whether no turn of a loop may take no byte.
fn turns_busy(
    shapes: &[Shape],
    contexts: &[Innermost],
    empties: &[bool],
    marks: &mut [bool],
    end: usize,
    at: usize,
    shape: Shape,
) -> bool
    requires at { at < end }
    requires end { end ≤ length shapes.now }
    requires known { length contexts.now ≡ length shapes.now + 1 }
    requires contexts { AreContexts shapes.now contexts.now (length shapes.now + 1) }
    requires size { length marks.old ≡ length shapes.now }
    requires leads { LeadsWell shapes.now end at shape }
    ensures size { length marks.new ≡ length marks.old }
    ensures busy { IsTrue result ↔ TurnsBusy shapes.now (IsEmptyBy empties.now) at shape }
{
    match shape {
        Shape::While(t) => {
            mark(shapes, contexts, empties, marks, at + 1, t - 1);
            !marks[t - 1]
        }
        _ => true,
    }
}

fn is_outside(now: Innermost) -> bool
    ensures { (o : Option (List Bracket)) → IsFlat o → now ≡ innermost o → (IsTrue result ↔ IsOutside o) }
{
    match now {
        Innermost::Within(_) => false,
        Innermost::Outside => true,
        Innermost::Broken => true,
    }
}

// Whether a routine doesn't end inside a window or loop.
fn ends_outside(shapes: &[Shape], contexts: &[Innermost], end: usize, at: usize) -> bool
    requires at { at < end }
    requires end { end ≤ length shapes.now }
    requires known { length contexts.now ≡ length shapes.now + 1 }
    requires contexts { AreContexts shapes.now contexts.now (length shapes.now + 1) }
    requires flat { IsFlat (opened shapes.now (at + 1)) }
    ensures { IsTrue result ↔ (at + 1 ≡ end → IsOutside (opened shapes.now end)) }
{
    if at + 1 == end {
        is_outside(context(contexts, end))
    } else {
        true
    }
}

/// Rule V4, where V1 holds.
pub(crate) fn keeps_nesting(
    shapes: &[Shape],
    contexts: &[Innermost],
    empties: &[bool],
    marks: &mut [bool],
    end: usize,
    at: usize,
) -> bool
    requires at { at < end }
    requires end { end ≤ length shapes.now }
    requires known { length contexts.now ≡ length shapes.now + 1 }
    requires contexts { AreContexts shapes.now contexts.now (length shapes.now + 1) }
    requires size { length marks.old ≡ length shapes.now }
    requires flat { IsFlat (opened shapes.now at) }
    requires target { KeepsTarget shapes.now end at }
    ensures size { length marks.new ≡ length marks.old }
    ensures nesting { IsTrue result ↔ KeepsNesting shapes.now (IsEmptyBy empties.now) end at }
{
    let shape = read(shapes, at);
    if !stands_well(context(contexts, at), shape) {
        return false;
    }
    if !ends_outside(shapes, contexts, end, at) {
        return false;
    }
    turns_busy(shapes, contexts, empties, marks, end, at, shape)
}
