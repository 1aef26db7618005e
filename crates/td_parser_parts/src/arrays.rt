//! What stands after a field's name: an array's size, a bit width, or what gives a field without bytes its value.

ghost use Rattle.std.specs.Prelude.{◌≡◌};
ghost use Rattle.td_grammar.specs.Reading.{Got};
ghost use Rattle.td_grammar.specs.Sets.{comes};
ghost use Rattle.td_grammar.specs.Grammar as grammar;
ghost use Rattle.td_grammar.specs.Fields as fields;
ghost use Rattle.td_parser_expr.specs.Giving.{Gives};
ghost use Rattle.td_parser_parts.specs.Pieces as pieces;

use std::alloc::Global;
use td_ast::expressions::Expr;
use td_ast::fields::ExtentTree;
use td_ast::token::{Token, TokenKind};
use td_parser_expr::failure::Failure;
use td_parser_expr::token::{expect, literal, name, peek_is};
use td_parser_expr::whole::expression;

// What opens an array part, expr and "]".
fn sized<'a>(
    alloc: Global,
    tokens: &'a [Token],
    opening: &TokenKind,
) -> Result<(Expr, &'a [Token]), Failure<'a>>
    ensures { Gives (λ x. Got x.0 x.1.now) result ((pieces.sized opening.now).reader.read tokens.now) }
{
    let (_, rest) = expect(tokens, opening)?;
    let (size, rest) = expression(alloc, rest)?;
    match expect(rest, &TokenKind::CloseBracket) {
        Ok((_, rest)) => Ok((size, rest)),
        // by a call, as each way through its variants, where it is let go, is a way through the function
        Err(failure) => {
            drop(size);
            Err(failure)
        }
    }
}

/// `"*" NAME | expr`, what gives a field without bytes its value.
#[tactic(auto, unfolding(td_grammar::specs::Fields::source))]
fn source(alloc: Global, tokens: &[Token]) -> Result<(ExtentTree, &[Token]), Failure<'_>>
    ensures { Gives (λ x. Got x.0 x.1.now) result (fields.source.reader.read tokens.now) }
{
    if peek_is(tokens, &TokenKind::Star) {
        let (star, rest) = expect(tokens, &TokenKind::Star)?;
        let (cell, rest) = name(alloc, rest)?;
        return Ok((ExtentTree::OfCell(star, cell), rest));
    }
    let (given, rest) = expression(alloc, tokens)?;
    Ok((ExtentTree::Given(given), rest))
}

/// An array part, a bit width, or what gives a value.
#[tactic(auto, unfolding(td_grammar::specs::Fields::extent))]
fn extent(alloc: Global, tokens: &[Token]) -> Result<(ExtentTree, &[Token]), Failure<'_>>
    ensures { Gives (λ x. Got x.0 x.1.now) result (fields.extent.reader.read tokens.now) }
{
    if peek_is(tokens, &TokenKind::OpenBracket) {
        let (size, rest) = sized(alloc, tokens, &TokenKind::OpenBracket)?;
        return Ok((ExtentTree::Bytes(size), rest));
    }
    if peek_is(tokens, &TokenKind::ByteSize) {
        let (size, rest) = sized(alloc, tokens, &TokenKind::ByteSize)?;
        return Ok((ExtentTree::ByteSize(size), rest));
    }
    if peek_is(tokens, &TokenKind::SingleElement) {
        let (size, rest) = sized(alloc, tokens, &TokenKind::SingleElement)?;
        return Ok((ExtentTree::SingleElement(size), rest));
    }
    if peek_is(tokens, &TokenKind::Zeroterm) {
        let (size, rest) = sized(alloc, tokens, &TokenKind::Zeroterm)?;
        return Ok((ExtentTree::Zeroterm(size), rest));
    }
    if peek_is(tokens, &TokenKind::Assign) {
        let (_, rest) = expect(tokens, &TokenKind::Assign)?;
        return source(alloc, rest);
    }
    let (_, rest) = expect(tokens, &TokenKind::Colon)?;
    let (width, rest) = literal(rest)?;
    Ok((ExtentTree::Bits(width), rest))
}

fn peek_is_extent(tokens: &[Token]) -> bool
    ensures { result ≡ comes pieces.extent_begins tokens.now }
{
    match tokens {
        [] => false,
        [first, ..] => matches!(
            &first.kind,
            TokenKind::OpenBracket
                | TokenKind::ByteSize
                | TokenKind::SingleElement
                | TokenKind::Zeroterm
                | TokenKind::Colon
                | TokenKind::Assign
        ),
    }
}

#[tactic(auto, unfolding(td_grammar::specs::Fields::extent))]
pub fn maybe_extent(
    alloc: Global,
    tokens: &[Token],
) -> Result<(Option<ExtentTree>, &[Token]), Failure<'_>>
    ensures { Gives (λ x. Got x.0 x.1.now) result ((grammar.maybe fields.extent).reader.read tokens.now) }
{
    if !peek_is_extent(tokens) {
        return Ok((None, tokens));
    }
    let (extent, rest) = extent(alloc, tokens)?;
    Ok((Some(extent), rest))
}
