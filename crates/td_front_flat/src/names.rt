//! Names as they stand in the whole text.

ghost use Rattle.std.specs.Prelude.{◌≡◌, ◌≤◌, [], ◌∷◌, None, Some, IfOk, MatchOption, length, take};
ghost use Rattle.td_names.specs.Names.{number_of};
ghost use Rattle.td_front_flat.specs.Names as names;
ghost use Rattle.td_front_flat.specs.Expressions as specs;
ghost use Rattle.td_front_flat.specs.Definitions as definitions;

use crate::marks::part_mark;
use crate::own::Own;
use std::alloc::{AllocError, Global};
use td_ast::names::Name;
use td_names::names::Names;
use td_num::text::{DOT, Text};

fn is_plain(b: u8) -> bool
    ensures { result ≡ names.is_plain b }
{
    b != DOT
}

/// How many bytes stand before the first dot.
#[tactic(auto, using(crate::proofs::Among::while_within))]
fn before_dot(name: &[u8]) -> usize
    ensures count { result ≡ names.before_dot name.now }
    ensures within { result ≤ length name.now }
{
    name.iter().take_while(|b| is_plain(**b)).count()
}

/// The part that a name names, where it has a dot.
pub(crate) fn part_named(name: &[u8]) -> Option<&[u8]>
    ensures { MatchOption result (names.part_named name.now ≡ None) (λ part. names.part_named name.now ≡ Some part.now) }
{
    if !is_qualified(name) {
        return None;
    }
    Some(&name[..before_dot(name)])
}

pub(crate) fn is_qualified(name: &[u8]) -> bool
    ensures { result ≡ names.is_qualified name.now }
{
    name.contains(&DOT)
}

/// The bytes of a name after its first dot.
fn after_dot(name: &[u8]) -> &[u8]
    ensures { result.now ≡ names.after_dot name.now }
{
    let before = before_dot(name);
    if before < name.len() {
        &name[before + 1..]
    } else {
        &[]
    }
}

/// The name that a definition of the part with this number has in the one tree.
fn of_part(alloc: Global, part: u32, name: &[u8]) -> Result<Text, AllocError>
    ensures { IfOk result (λ text. text ≡ names.of_part part name.now) }
{
    let mark = part_mark(part);
    let mut bytes = Vec::from_slice(alloc, &mark)?;
    bytes.extend_from_slice(name)?;
    Ok(Text::of(bytes))
}

// The name of a part's definition that a qualified name names.
fn of_other(alloc: Global, parts: &Names, name: &[u8]) -> Result<Text, AllocError>
    ensures { IfOk result (λ text. text ≡ names.of_part (number_of parts.now (take (names.before_dot name.now) name.now)) (names.after_dot name.now)) }
{
    let part = parts.number(&name[..before_dot(name)]);
    of_part(alloc, part, after_dot(name))
}

/// What a name is, where something is named.
pub(crate) fn meant(
    alloc: Global,
    own: &Own,
    scope: &Names,
    name: &[u8],
) -> Result<Text, AllocError>
    ensures { IfOk result (λ text. text ≡ names.meant own.now scope.now name.now) }
{
    if is_qualified(name) {
        return of_other(alloc, &own.parts, name);
    }
    if own.literals.contains(name) {
        return of_part(alloc, own.number, name);
    }
    if scope.contains(name) {
        return Text::copy_of(alloc, name);
    }
    of_part(alloc, own.number, name)
}

/// What a local's name is, where it is given.
pub(crate) fn given(alloc: Global, own: &Own, name: &[u8]) -> Result<Text, AllocError>
    ensures { IfOk result (λ text. text ≡ names.given own.now name.now) }
{
    if own.literals.contains(name) {
        return of_part(alloc, own.number, name);
    }
    Text::copy_of(alloc, name)
}

pub(crate) fn used_name(
    alloc: Global,
    own: &Own,
    scope: &Names,
    name: &Name,
) -> Result<Name, AllocError>
    ensures { IfOk result (λ n. n ≡ specs.used_name own.now scope.now name.now) }
{
    let text = meant(alloc, own, scope, name.text.as_slice())?;
    Ok(Name {
        text,
        span: name.span,
    })
}

pub(crate) fn given_name(alloc: Global, own: &Own, name: &Name) -> Result<Name, AllocError>
    ensures { IfOk result (λ n. n ≡ specs.given_name own.now name.now) }
{
    let text = given(alloc, own, name.text.as_slice())?;
    Ok(Name {
        text,
        span: name.span,
    })
}

/// The name of a definition, a constant or a member, where it is defined.
pub(crate) fn defined_name(alloc: Global, own: &Own, name: &Name) -> Result<Name, AllocError>
    ensures { IfOk result (λ n. n ≡ definitions.defined_name own.now name.now) }
{
    let text = of_part(alloc, own.number, name.text.as_slice())?;
    Ok(Name {
        text,
        span: name.span,
    })
}

pub(crate) fn copied_name(alloc: Global, name: &Name) -> Result<Name, AllocError>
    ensures { IfOk result (λ n. n ≡ name.now) }
{
    let text = Text::copy_of(alloc, name.text.as_slice())?;
    Ok(Name {
        text,
        span: name.span,
    })
}
