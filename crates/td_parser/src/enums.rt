//! Enums.

ghost use Rattle.std.specs.Prelude.{◌≡◌};
ghost use Rattle.td_ast.specs.declared.definitions.Def.TheVariants as defs;
ghost use Rattle.td_grammar.specs.Reading.{Got};
ghost use Rattle.td_grammar.specs.Sets.{comes};
ghost use Rattle.td_grammar.specs.Grammar as grammar;
ghost use Rattle.td_grammar.specs.Tokens as words;
ghost use Rattle.td_grammar.specs.Definitions as definitions;
ghost use Rattle.td_parser_expr.specs.Giving.{Gives, Reads};
ghost use Rattle.td_parser.specs.Pieces as pieces;

use std::alloc::Global;
use td_ast::definitions::{Def, EnumTree, ItemTree};
use td_ast::names::{Name, NumberTree};
use td_ast::token::{Span, Token, TokenKind};
use td_num::items::Items;
use td_parser_expr::failure::Failure;
use td_parser_expr::token::{expect, name, number_type, peek_is};
use td_parser_parts::parameters::constant;

/// `NAME ["=" const]`
#[tactic(auto, unfolding(td_grammar::specs::Definitions::item))]
fn item(alloc: Global, tokens: &[Token]) -> Result<(ItemTree, &[Token]), Failure<'_>>
    ensures { Gives (λ x. Got x.0 x.1.now) result (definitions.item.reader.read tokens.now) }
{
    let (name, rest) = name(alloc, tokens)?;
    if !peek_is(rest, &TokenKind::Assign) {
        return Ok((ItemTree { name, value: None }, rest));
    }
    let (_, rest) = expect(rest, &TokenKind::Assign)?;
    let (value, rest) = constant(alloc, rest)?;
    let item = ItemTree {
        name,
        value: Some(value),
    };
    Ok((item, rest))
}

fn peek_is_name(tokens: &[Token]) -> bool
    ensures { result ≡ comes pieces.item_begins tokens.now }
{
    match tokens {
        [] => false,
        [first, ..] => matches!(&first.kind, TokenKind::Name(_)),
    }
}

// "," [ item ]
#[tactic(auto, unfolding(td_grammar::specs::Definitions::item))]
fn next_item(alloc: Global, tokens: &[Token]) -> Result<(Option<ItemTree>, &[Token]), Failure<'_>>
    ensures { Gives (λ x. Got x.0 x.1.now) result (pieces.next_item.reader.read tokens.now) }
{
    let (_, rest) = expect(tokens, &TokenKind::Comma)?;
    if !peek_is_name(rest) {
        return Ok((None, rest));
    }
    let (item, rest) = item(alloc, rest)?;
    Ok((Some(item), rest))
}

/// `item { "," item } [","]`
fn items(alloc: Global, tokens: &[Token]) -> Result<(Items<ItemTree>, &[Token]), Failure<'_>>
    ensures { Gives (λ x. Got x.0 x.1.now) result (pieces.items.reader.read tokens.now) }
{
    let mut items = Items::new(alloc);
    let (first, rest) = item(alloc, tokens)?;
    items.push(first)?;
    let mut rest = rest;
    while peek_is(rest, &TokenKind::Comma) {
        let (next, after) = next_item(alloc, rest)?;
        let Some(next) = next else {
            return Ok((items, after));
        };
        items.push(next)?;
        rest = after;
    }
    Ok((items, rest))
}

// INT "enum" NAME "{"
fn enum_head(alloc: Global, tokens: &[Token]) -> Result<(NumberTree, Name, &[Token]), Failure<'_>>
    ensures { Gives (λ x. Got (x.0, x.1) x.2.now) result (definitions.enum_head.reader.read tokens.now) }
{
    let (base, rest) = number_type(tokens)?;
    let (_, rest) = expect(rest, &TokenKind::Enum)?;
    let (name, rest) = name(alloc, rest)?;
    let (_, rest) = expect(rest, &TokenKind::OpenBrace)?;
    Ok((base, name, rest))
}

// [";"]. Takes no memory.
fn maybe_semicolon(tokens: &[Token]) -> Result<(Option<Span>, &[Token]), Failure<'_>>
    ensures { Reads (λ x. Got x.0 x.1.now) result ((grammar.maybe (words.terminal TokenKind.Semicolon)).reader.read tokens.now) }
{
    if !peek_is(tokens, &TokenKind::Semicolon) {
        return Ok((None, tokens));
    }
    let (at, rest) = expect(tokens, &TokenKind::Semicolon)?;
    Ok((Some(at), rest))
}

// Where a value is let go, each way through its variants is a way through the function. So what has many is let go by a call, and
// the result that holds it is matched.

// "}" [";"]. Takes no memory.
fn enum_end(tokens: &[Token]) -> Result<(Span, Option<Span>, &[Token]), Failure<'_>>
    ensures { Reads (λ x. Got (x.0, x.1) x.2.now) result (pieces.enum_end.reader.read tokens.now) }
{
    let (closing, rest) = expect(tokens, &TokenKind::CloseBrace)?;
    let (end, rest) = maybe_semicolon(rest)?;
    Ok((closing, end, rest))
}

// item { "," item } [","] "}" [";"]
fn enum_body(
    alloc: Global,
    tokens: &[Token],
) -> Result<(Items<ItemTree>, Span, Option<Span>, &[Token]), Failure<'_>>
    ensures { Gives (λ x. Got (x.0, (x.1, x.2)) x.3.now) result (pieces.enum_body.reader.read tokens.now) }
{
    match items(alloc, tokens) {
        Ok((items, rest)) => match enum_end(rest) {
            Ok((closing, end, rest)) => Ok((items, closing, end, rest)),
            Err(failure) => {
                drop(items);
                Err(failure)
            }
        },
        Err(failure) => Err(failure),
    }
}

// An enum, by its parts.
#[tactic(auto, unfolding(td_grammar::specs::Definitions::enumeration))]
fn enum_parts(
    alloc: Global,
    tokens: &[Token],
) -> Result<(NumberTree, Name, Items<ItemTree>, &[Token]), Failure<'_>>
    ensures { Gives (λ x. Got (defs.Enum (record { base = x.0; name = x.1; items = x.2 })) x.3.now) result (definitions.enumeration.reader.read tokens.now) }
{
    let (base, name, rest) = enum_head(alloc, tokens)?;
    match enum_body(alloc, rest) {
        Ok((items, _, _, rest)) => Ok((base, name, items, rest)),
        Err(failure) => {
            drop(name);
            Err(failure)
        }
    }
}

/// An enum.
pub fn enumeration(alloc: Global, tokens: &[Token]) -> Result<(Def, &[Token]), Failure<'_>>
    ensures { Gives (λ x. Got x.0 x.1.now) result (definitions.enumeration.reader.read tokens.now) }
{
    match enum_parts(alloc, tokens) {
        Ok((base, name, items, rest)) => Ok((Def::Enum(EnumTree { base, name, items }), rest)),
        Err(failure) => Err(failure),
    }
}
