//! Places that are reached with no byte taken.

ghost use Rattle.std.specs.Prelude.{◌≡◌, ℕ, ◌+◌, ◌<◌, ◌≤◌, ◌⊎◌, ◌↔◌, length, IsTrue, true, false, List, Option, Some};
ghost use Rattle.td_verify.specs.Brackets as brackets;
ghost use Rattle.td_verify.specs.Brackets.{innermost};
ghost use Rattle.td_verify.specs.Contexts.{AreContexts};
ghost use Rattle.td_verify.specs.Marks.{IsEmptyBy, marked, IsTarget};
ghost use Rattle.td_verify.specs.Ways.{Leads, IsIdle, IdleWay};
ghost use Rattle.td_verify.specs.declared.bracket.Bracket.{Bracket};

use crate::bracket::{self, Innermost};
use crate::contexts::{context, read};
use crate::shape::Shape;

// Whether a routine may take no byte; true of those that aren't in the table.
fn is_empty_by(empties: &[bool], m: usize) -> bool
    ensures { IsTrue result ↔ IsEmptyBy empties.now m }
{
    if m < empties.len() { empties[m] } else { true }
}

fn window_bytes(now: Innermost) -> u64
    ensures { (o : Option (List Bracket)) → now ≡ innermost o → result ≡ brackets.window_bytes o }
{
    match now {
        Innermost::Within(bracket::Bracket::Window { bytes, .. }) => bytes,
        Innermost::Within(bracket::Bracket::Loop { .. }) => 0,
        Innermost::Outside => 0,
        Innermost::Broken => 0,
    }
}

fn is_idle(shape: Shape, now: Innermost, empties: &[bool]) -> bool
    ensures { (o : Option (List Bracket)) → now ≡ innermost o → (IsTrue result ↔ IsIdle (IsEmptyBy empties.now) o shape) }
{
    match shape {
        Shape::Straight { bytes, .. } => bytes == 0,
        Shape::Call(m) => is_empty_by(empties, m),
        Shape::Close => window_bytes(now) == 0,
        _ => true,
    }
}

/// Where an instruction leads.
#[derive(Clone, Copy)]
pub struct Targets {
    jump: Option<usize>,
    next: bool,
}

fn targets_of(shape: Shape) -> Targets
    ensures all { (p q : ℕ) → Leads p shape q → IsTarget p result.jump result.next q }
    ensures jump { (p q : ℕ) → result.jump ≡ Some q → Leads p shape q }
    ensures next { (p : ℕ) → result.next ≡ true → Leads p shape (p + 1) }
{
    match shape {
        Shape::Jump(t) => Targets {
            jump: Some(t),
            next: false,
        },
        Shape::Branch(t) => Targets {
            jump: Some(t),
            next: true,
        },
        Shape::While(t) => Targets {
            jump: Some(t),
            next: false,
        },
        Shape::Return => Targets {
            jump: None,
            next: false,
        },
        Shape::Fail => Targets {
            jump: None,
            next: false,
        },
        Shape::Again(_) => Targets {
            jump: None,
            next: false,
        },
        Shape::Straight { .. } => Targets {
            jump: None,
            next: true,
        },
        Shape::Call(_) => Targets {
            jump: None,
            next: true,
        },
        Shape::Open { .. } => Targets {
            jump: None,
            next: true,
        },
        Shape::Close => Targets {
            jump: None,
            next: true,
        },
    }
}

// Marks a place behind `at` and not behind `to`.
fn set_mark(marks: &mut [bool], at: usize, q: usize, to: usize)
    requires to { to < length marks.old }
    ensures length { length marks.new ≡ length marks.old }
    ensures kept { (k : ℕ) → marked marks.old k ≡ true → marked marks.new k ≡ true }
    ensures low { (k : ℕ) → k ≤ at → marked marks.new k ≡ marked marks.old k }
    ensures only { (k : ℕ) → marked marks.new k ≡ true → (marked marks.old k ≡ true) ⊎ ((k ≡ q) × (at < q)) }
    ensures here { at < q → q ≤ to → marked marks.new q ≡ true }
{
    if at < q && q <= to {
        marks[q] = true;
    }
}

// Marks where a jump leads.
fn mark_jump(marks: &mut [bool], at: usize, jump: Option<usize>, to: usize)
    requires to { to < length marks.old }
    ensures length { length marks.new ≡ length marks.old }
    ensures kept { (k : ℕ) → marked marks.old k ≡ true → marked marks.new k ≡ true }
    ensures low { (k : ℕ) → k ≤ at → marked marks.new k ≡ marked marks.old k }
    ensures only { (k : ℕ) → marked marks.new k ≡ true → (marked marks.old k ≡ true) ⊎ ((jump ≡ Some k) × (at < k)) }
    ensures here { (q : ℕ) → jump ≡ Some q → at < q → q ≤ to → marked marks.new q ≡ true }
{
    match jump {
        Some(t) => set_mark(marks, at, t, to),
        None => {}
    }
}

// Hands a mark on.
fn hand_on(shape: Shape, at: usize, marks: &mut [bool], to: usize)
    requires before { at < to }
    requires to { to < length marks.old }
    ensures length { length marks.new ≡ length marks.old }
    ensures kept { (k : ℕ) → marked marks.old k ≡ true → marked marks.new k ≡ true }
    ensures low { (k : ℕ) → k ≤ at → marked marks.new k ≡ marked marks.old k }
    ensures only { (k : ℕ) → marked marks.new k ≡ true → (marked marks.old k ≡ true) ⊎ (Leads at shape k × (at < k)) }
    ensures on { (q : ℕ) → Leads at shape q → at < q → q ≤ to → marked marks.new q ≡ true }
{
    let targets = targets_of(shape);
    mark_jump(marks, at, targets.jump, to);
    if targets.next {
        set_mark(marks, at, at + 1, to);
    }
}

// Takes the marks of a stretch away.
fn clear(marks: &mut [bool], from: usize, to: usize)
    requires from { from ≤ to }
    requires to { to < length marks.old }
    ensures length { length marks.new ≡ length marks.old }
    ensures clear { (k : ℕ) → from ≤ k → k ≤ to → marked marks.new k ≡ false }
{
    for at in from..to + 1 {
        marks[at] = false;
    }
}

// One step: hands the mark of `at` on, where there is one and no byte is taken.
fn pass(shape: Shape, now: Innermost, empties: &[bool], at: usize, marks: &mut [bool], to: usize)
    requires before { at < to }
    requires to { to < length marks.old }
    ensures length { length marks.new ≡ length marks.old }
    ensures kept { (k : ℕ) → marked marks.old k ≡ true → marked marks.new k ≡ true }
    ensures low { (k : ℕ) → k ≤ at → marked marks.new k ≡ marked marks.old k }
    ensures only { (o : Option (List Bracket)) → now ≡ innermost o → (k : ℕ) → marked marks.new k ≡ true → (marked marks.old k ≡ true) ⊎ (Leads at shape k × (at < k) × IsIdle (IsEmptyBy empties.now) o shape × (marked marks.old at ≡ true)) }
    ensures on { (o : Option (List Bracket)) → now ≡ innermost o → (q : ℕ) → Leads at shape q → at < q → q ≤ to → IsIdle (IsEmptyBy empties.now) o shape → marked marks.old at ≡ true → marked marks.new q ≡ true }
{
    if marks[at] && is_idle(shape, now, empties) {
        hand_on(shape, at, marks, to);
    }
}

/// Marks the places up to `to` that are reached from `from` with no byte taken.
pub fn mark(
    shapes: &[Shape],
    contexts: &[Innermost],
    empties: &[bool],
    marks: &mut [bool],
    from: usize,
    to: usize,
)
    requires from { from ≤ to }
    requires to { to < length shapes.now }
    requires size { length marks.old ≡ length shapes.now }
    requires known { length contexts.now ≡ length shapes.now + 1 }
    requires contexts { AreContexts shapes.now contexts.now (length shapes.now + 1) }
    ensures length { length marks.new ≡ length marks.old }
    ensures marked { (q : ℕ) → from ≤ q → q ≤ to → ((marked marks.new q ≡ true) ↔ IdleWay shapes.now (IsEmptyBy empties.now) from q) }
{
    clear(marks, from, to);
    marks[from] = true;
    for at in from..to {
        pass(
            read(shapes, at),
            context(contexts, at),
            empties,
            at,
            marks,
            to,
        );
    }
}
