//! Arguments of types.

ghost use Rattle.td_grammar.specs.Reading.{Got, with_first};
ghost use Rattle.td_grammar.specs.Grammar as grammar;
ghost use Rattle.td_grammar.specs.Expressions as expressions;
ghost use Rattle.td_grammar.specs.Sequences as sequences;
ghost use Rattle.td_parser_expr.specs.Giving.{Gives};
ghost use Rattle.td_parser_parts.specs.Pieces as pieces;

use std::alloc::Global;
use td_ast::expressions::Expr;
use td_ast::token::{Token, TokenKind};
use td_num::items::Items;
use td_parser_expr::failure::Failure;
use td_parser_expr::token::{expect, peek_is};
use td_parser_expr::whole::expression;

/// `"," expr`
fn next_argument(alloc: Global, tokens: &[Token]) -> Result<(Expr, &[Token]), Failure<'_>>
    ensures { Gives (λ x. Got x.0 x.1.now) result (pieces.next_argument.reader.read tokens.now) }
{
    let (_, rest) = expect(tokens, &TokenKind::Comma)?;
    expression(alloc, rest)
}

// The first argument, and those after it.
fn arguments_from(
    alloc: Global,
    first: Expr,
    tokens: &[Token],
) -> Result<(Items<Expr>, &[Token]), Failure<'_>>
    ensures { Gives (λ x. Got x.0 x.1.now) result (with_first first ((grammar.all_of pieces.next_argument).reader.read tokens.now)) }
{
    let mut arguments = Items::new(alloc);
    arguments.push(first)?;
    let mut rest = tokens;
    while peek_is(rest, &TokenKind::Comma) {
        let (next, after) = next_argument(alloc, rest)?;
        arguments.push(next)?;
        rest = after;
    }
    Ok((arguments, rest))
}

/// `expr { "," expr }`
fn parted_arguments(alloc: Global, tokens: &[Token]) -> Result<(Items<Expr>, &[Token]), Failure<'_>>
    ensures { Gives (λ x. Got x.0 x.1.now) result ((sequences.parted expressions.expr).reader.read tokens.now) }
{
    let (first, rest) = expression(alloc, tokens)?;
    arguments_from(alloc, first, rest)
}

/// `["(" expr { "," expr } ")"]`
pub fn arguments(alloc: Global, tokens: &[Token]) -> Result<(Items<Expr>, &[Token]), Failure<'_>>
    ensures { Gives (λ x. Got x.0 x.1.now) result ((sequences.in_parentheses expressions.expr).reader.read tokens.now) }
{
    if !peek_is(tokens, &TokenKind::OpenParen) {
        return Ok((Items::new(alloc), tokens));
    }
    let (_, rest) = expect(tokens, &TokenKind::OpenParen)?;
    let (arguments, rest) = parted_arguments(alloc, rest)?;
    match expect(rest, &TokenKind::CloseParen) {
        Ok((_, rest)) => Ok((arguments, rest)),
        // by a call, as each way through its parts, where it is let go, is a way through the function
        Err(failure) => {
            drop(arguments);
            Err(failure)
        }
    }
}
