//! The first use of a part that reaches the part in which it is used.

ghost use Rattle.std.specs.Prelude.{◌≡◌, ◌<◌, ◌≤◌, ◌^◌, true, false, length, take, IfOk, IfSome};
ghost use Rattle.td_num.specs.Lists.{is_among};
ghost use Rattle.td_front_order.specs.Order.{IsWithin};
ghost use Rattle.td_front_order.specs.Heights.{AreHeights};
ghost use Rattle.td_front_flat.specs.Order.{IsCyclicIn};
ghost use Rattle.td_front_flat.specs.Firsts.{IsFirstUse, IsFirstPlace};
ghost use Rattle.td_front_flat.specs.Lower.{IsLowerIn, AreLowerIn};

use std::alloc::{AllocError, Global};
use td_ast::names::Name;
use td_ast::token::Span;
use td_front_order::heights::{are_heights, height_of, heights_of};
use td_front_order::reach::reached_from;
use td_names::names::Names;
use td_num::items::Items;

fn is_among(numbers: &[u32], number: u32) -> bool
    ensures { result ≡ is_among numbers.now number }
{
    numbers.contains(&number)
}

/// Whether a use in a part is one of a part that reaches it. `AllocError`: out of memory.
fn is_cyclic(
    alloc: Global,
    graph: &[Items<u32>],
    names: &Names,
    part: u32,
    name: &Name,
) -> Result<bool, AllocError>
    requires within { IsWithin graph.now }
    requires count { length graph.now ≡ length names.now }
    ensures yes { IfOk result (λ b. b ≡ true → IsCyclicIn names.now graph.now part name.now) }
    ensures no { IfOk result (λ b. b ≡ false → IsCyclicIn names.now graph.now part name.now → ⊥) }
{
    if !names.contains(name.text.as_slice()) {
        return Ok(false);
    }
    let reached = reached_from(alloc, graph, names.number(name.text.as_slice()))?;
    Ok(is_among(reached.as_slice(), part))
}

// The place of the first such use among those of a part.
fn first_use(
    alloc: Global,
    graph: &[Items<u32>],
    names: &Names,
    part: u32,
    uses: &[Name],
) -> Result<Option<usize>, AllocError>
    requires within { IsWithin graph.now }
    requires count { length graph.now ≡ length names.now }
    ensures { IfOk result (IsFirstUse names.now graph.now part uses.now) }
{
    let mut at = 0;
    while at < uses.len() {
        if is_cyclic(alloc, graph, names, part, &uses[at])? {
            return Ok(Some(at));
        }
        at += 1;
    }
    Ok(None)
}

// The place of the first such use of all, by a search for each.
fn first_searched(
    alloc: Global,
    graph: &[Items<u32>],
    names: &Names,
    all: &[Items<Name>],
) -> Result<Option<Span>, AllocError>
    requires within { IsWithin graph.now }
    requires count { length graph.now ≡ length names.now }
    requires small { length all.now < 2 ^ 32 }
    ensures { IfOk result (IsFirstPlace names.now graph.now all.now) }
{
    let mut part = 0u32;
    while (part as usize) < all.len() {
        let uses = all[part as usize].as_slice();
        if let Some(at) = first_use(alloc, graph, names, part, uses)? {
            return Ok(Some(uses[at].span));
        }
        part += 1;
    }
    Ok(None)
}

// Whether a use is one of a lower part, or of none.
fn is_lower(names: &Names, heights: &[u32], part: u32, name: &Name) -> bool
    ensures { result ≡ true → IsLowerIn names.now heights.now part name.now }
{
    if !names.contains(name.text.as_slice()) {
        return true;
    }
    height_of(heights, names.number(name.text.as_slice())) < height_of(heights, part)
}

// How many uses of a part come before the first that isn't one of a lower part.
fn lower_uses(names: &Names, heights: &[u32], part: u32, uses: &[Name]) -> usize
    ensures within { result ≤ length uses.now }
    ensures lower { AreLowerIn names.now heights.now part (take result uses.now) }
{
    let mut at = 0;
    while at < uses.len() {
        if !is_lower(names, heights, part, &uses[at]) {
            return at;
        }
        at += 1;
    }
    at
}

// The place of the first such use of all, where heights tell it: no use of a lower part is one, so one search for the first
// other use is enough.
fn first_by_heights(
    alloc: Global,
    graph: &[Items<u32>],
    names: &Names,
    all: &[Items<Name>],
    heights: &[u32],
) -> Result<Option<Option<Span>>, AllocError>
    requires within { IsWithin graph.now }
    requires count { length graph.now ≡ length names.now }
    requires small { length all.now < 2 ^ 32 }
    requires heights { AreHeights graph.now heights.now }
    ensures { IfOk result (λ first. IfSome first (IsFirstPlace names.now graph.now all.now)) }
{
    let mut part = 0u32;
    while (part as usize) < all.len() {
        let uses = all[part as usize].as_slice();
        let at = lower_uses(names, heights, part, uses);
        if at < uses.len() {
            let name = &uses[at];
            if is_cyclic(alloc, graph, names, part, name)? {
                return Ok(Some(Some(name.span)));
            }
            return Ok(None);
        }
        part += 1;
    }
    Ok(Some(None))
}

/// The place of the first such use of all, where `all` has for each part what it uses. Heights tell it in time that grows as the
/// uses do; they are looked at first, and without them each use is searched from. `AllocError`: out of memory.
pub(crate) fn first_cyclic(
    alloc: Global,
    graph: &[Items<u32>],
    names: &Names,
    all: &[Items<Name>],
) -> Result<Option<Span>, AllocError>
    requires within { IsWithin graph.now }
    requires count { length graph.now ≡ length names.now }
    requires graph { length graph.now < 2 ^ 32 }
    requires small { length all.now < 2 ^ 32 }
    ensures { IfOk result (IsFirstPlace names.now graph.now all.now) }
{
    let heights = heights_of(alloc, graph)?;
    if !are_heights(graph, heights.as_slice()) {
        return first_searched(alloc, graph, names, all);
    }
    match first_by_heights(alloc, graph, names, all, heights.as_slice())? {
        Some(first) => Ok(first),
        None => first_searched(alloc, graph, names, all),
    }
}
