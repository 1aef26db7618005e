//! What a `mutable` parameter names: a cell of some type, or a copy buffer with its room.

ghost use Rattle.std.specs.Prelude.{◌≡◌};
ghost use Rattle.td_grammar.specs.Reading.{Got, first_passes};
ghost use Rattle.td_grammar.specs.Grammar as grammar;
ghost use Rattle.td_grammar.specs.Parameters as parameters;
ghost use Rattle.td_parser_expr.specs.Giving.{Gives, Reads};

use crate::parameters::constant;
use std::alloc::Global;
use td_ast::names::{ConstTree, Name, NumberTree};
use td_ast::parameters::{ParamTree, TargetTree};
use td_ast::token::{Token, TokenKind};
use td_num::number::{ByteOrder, NumberType, Width};
use td_parser_expr::failure::Failure;
use td_parser_expr::token::{expect, name, number_type, peek_is, qualified};

fn is_byte(kind: &TokenKind) -> bool
    ensures { result ≡ parameters.is_byte kind.now }
{
    matches!(
        kind,
        TokenKind::Int(NumberType {
            width: Width::One,
            order: ByteOrder::LittleEndian,
        })
    )
}

fn peek_is_byte(tokens: &[Token]) -> bool
    ensures { result ≡ first_passes (λ t. parameters.is_byte t.kind) tokens.now }
{
    match tokens {
        [] => false,
        [first, ..] => is_byte(&first.kind),
    }
}

/// `UINT8`. Takes no memory.
fn byte(tokens: &[Token]) -> Result<(NumberTree, &[Token]), Failure<'_>>
    ensures { Reads (λ x. Got x.0 x.1.now) result (parameters.byte.reader.read tokens.now) }
{
    match tokens {
        [first, ..] if is_byte(&first.kind) => number_type(tokens),
        _ => Err(Failure::Unexpected(tokens)),
    }
}

/// Any other `INT`. Takes no memory.
fn wider(tokens: &[Token]) -> Result<(NumberTree, &[Token]), Failure<'_>>
    ensures { Reads (λ x. Got x.0 x.1.now) result (parameters.wider.reader.read tokens.now) }
{
    match tokens {
        [first, ..] if is_byte(&first.kind) => Err(Failure::Unexpected(tokens)),
        _ => number_type(tokens),
    }
}

fn target(alloc: Global, tokens: &[Token]) -> Result<(TargetTree, &[Token]), Failure<'_>>
    ensures { Gives (λ x. Got x.0 x.1.now) result (parameters.target.reader.read tokens.now) }
{
    match tokens {
        [
            Token {
                kind: TokenKind::Int(_),
                ..
            },
            ..
        ] => {
            let (number, rest) = wider(tokens)?;
            Ok((TargetTree::Number(number), rest))
        }
        [
            Token {
                kind: TokenKind::Pointer,
                ..
            },
            ..
        ] => {
            let (at, rest) = expect(tokens, &TokenKind::Pointer)?;
            Ok((TargetTree::Pointer(at), rest))
        }
        _ => {
            let (name, rest) = qualified(alloc, tokens)?;
            Ok((TargetTree::Named(name), rest))
        }
    }
}

// "[" const "]"
fn room(alloc: Global, tokens: &[Token]) -> Result<(ConstTree, &[Token]), Failure<'_>>
    ensures { Gives (λ x. Got x.0 x.1.now) result (parameters.room.reader.read tokens.now) }
{
    let (_, rest) = expect(tokens, &TokenKind::OpenBracket)?;
    let (count, rest) = constant(alloc, rest)?;
    let (_, rest) = expect(rest, &TokenKind::CloseBracket)?;
    Ok((count, rest))
}

fn maybe_room(alloc: Global, tokens: &[Token]) -> Result<(Option<ConstTree>, &[Token]), Failure<'_>>
    ensures { Gives (λ x. Got x.0 x.1.now) result ((grammar.maybe parameters.room).reader.read tokens.now) }
{
    if !peek_is(tokens, &TokenKind::OpenBracket) {
        return Ok((None, tokens));
    }
    let (count, rest) = room(alloc, tokens)?;
    Ok((Some(count), rest))
}

fn bytes_of(number: NumberTree, name: Name, count: Option<ConstTree>) -> ParamTree
    ensures { result ≡ parameters.bytes_of number name count }
{
    match count {
        None => ParamTree::Mutable(TargetTree::Number(number), name),
        Some(room) => ParamTree::Bytes { name, room },
    }
}

// "UINT8" "*" NAME ["[" const "]"]
fn bytes(alloc: Global, tokens: &[Token]) -> Result<(ParamTree, &[Token]), Failure<'_>>
    ensures { Gives (λ x. Got x.0 x.1.now) result (parameters.bytes.reader.read tokens.now) }
{
    let (number, rest) = byte(tokens)?;
    let (_, rest) = expect(rest, &TokenKind::Star)?;
    let (name, rest) = name(alloc, rest)?;
    let (count, rest) = maybe_room(alloc, rest)?;
    Ok((bytes_of(number, name, count), rest))
}

// target "*" NAME
fn cell(alloc: Global, tokens: &[Token]) -> Result<(ParamTree, &[Token]), Failure<'_>>
    ensures { Gives (λ x. Got x.0 x.1.now) result (parameters.cell.reader.read tokens.now) }
{
    let (target, rest) = target(alloc, tokens)?;
    let (_, rest) = expect(rest, &TokenKind::Star)?;
    let (name, rest) = name(alloc, rest)?;
    Ok((ParamTree::Mutable(target, name), rest))
}

/// `"UINT8" "*" NAME ["[" const "]"] | target "*" NAME`
pub(crate) fn place(alloc: Global, tokens: &[Token]) -> Result<(ParamTree, &[Token]), Failure<'_>>
    ensures { Gives (λ x. Got x.0 x.1.now) result (parameters.place.reader.read tokens.now) }
{
    if peek_is_byte(tokens) {
        return bytes(alloc, tokens);
    }
    cell(alloc, tokens)
}
