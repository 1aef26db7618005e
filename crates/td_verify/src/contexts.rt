//! What is open at each place, in one pass: what is open behind a closing is what was open before its opening, so that no
//! stack is needed.

ghost use Rattle.std.specs.Prelude.{◌≡◌, ◌+◌, ◌<◌, length, Option, List};
ghost use Rattle.td_verify.specs.Brackets.{shape_at, and_then, innermost, opening};
ghost use Rattle.td_verify.specs.Contexts.{innermost_at, IsOuter, OuterOf, AreContexts};
ghost use Rattle.td_verify.specs.declared.bracket.Bracket.{Bracket};

use crate::bracket::{Bracket, Innermost};
use crate::shape::Shape;

/// The shape at a place.
pub fn read(shapes: &[Shape], at: usize) -> Shape
    requires { at < length shapes.now }
    ensures { result ≡ shape_at shapes.now at }
{
    shapes[at]
}

/// What is open at a place, by the table.
pub fn context(contexts: &[Innermost], at: usize) -> Innermost
    requires { at < length contexts.now }
    ensures { result ≡ innermost_at contexts.now at }
{
    contexts[at]
}

fn context_of(contexts: &[Innermost], at: usize) -> Innermost
    ensures { result ≡ innermost_at contexts.now at }
{
    if at < contexts.len() {
        context(contexts, at)
    } else {
        Innermost::Broken
    }
}

// What is open outside of the innermost.
fn outer(contexts: &[Innermost], now: Innermost) -> Innermost
    ensures { IsOuter contexts.now now result }
{
    match now {
        Innermost::Within(Bracket::Window { at, .. }) => context_of(contexts, at),
        Innermost::Within(Bracket::Loop { at }) => context_of(contexts, at),
        Innermost::Outside => Innermost::Broken,
        Innermost::Broken => Innermost::Broken,
    }
}

fn opened_by(now: Innermost, bracket: Bracket) -> Innermost
    ensures { (o : Option (List Bracket)) → now ≡ innermost o → result ≡ innermost (opening bracket o) }
{
    match now {
        Innermost::Broken => Innermost::Broken,
        Innermost::Outside => Innermost::Within(bracket),
        Innermost::Within(_) => Innermost::Within(bracket),
    }
}

// What is open after an instruction, by what is open before it and outside of that.
fn step(at: usize, shape: Shape, now: Innermost, outer: Innermost) -> Innermost
    ensures { (o : Option (List Bracket)) → now ≡ innermost o → OuterOf o outer → result ≡ innermost (and_then at shape o) }
{
    match shape {
        Shape::Open { bytes } => opened_by(now, Bracket::Window { at, bytes }),
        Shape::While(_) => opened_by(now, Bracket::Loop { at }),
        Shape::Close => match now {
            Innermost::Within(Bracket::Window { .. }) => outer,
            Innermost::Within(Bracket::Loop { .. }) => Innermost::Broken,
            Innermost::Outside => Innermost::Broken,
            Innermost::Broken => Innermost::Broken,
        },
        Shape::Again(_) => match now {
            Innermost::Within(Bracket::Loop { .. }) => outer,
            Innermost::Within(Bracket::Window { .. }) => Innermost::Broken,
            Innermost::Outside => Innermost::Broken,
            Innermost::Broken => Innermost::Broken,
        },
        _ => now,
    }
}

/// Says what is open before each instruction and at the end.
pub fn fill(shapes: &[Shape], contexts: &mut [Innermost])
    requires { length contexts.old ≡ length shapes.now + 1 }
    ensures length { length contexts.new ≡ length shapes.now + 1 }
    ensures contexts { AreContexts shapes.now contexts.new (length shapes.now + 1) }
{
    contexts[0] = Innermost::Outside;
    for at in 0..shapes.len() {
        let now = context(contexts, at);
        let next = step(at, read(shapes, at), now, outer(contexts, now));
        contexts[at + 1] = next;
    }
}
