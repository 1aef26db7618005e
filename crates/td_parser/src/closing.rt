//! What ends a definition.

ghost use Rattle.td_grammar.specs.Reading.{Got};
ghost use Rattle.td_parser_expr.specs.Giving.{Gives};
ghost use Rattle.td_grammar.specs.Definitions as definitions;
ghost use Rattle.td_parser.specs.Pieces as pieces;

use std::alloc::Global;
use td_ast::names::Name;
use td_ast::token::{Span, Token, TokenKind};
use td_parser_expr::failure::Failure;
use td_parser_expr::token::{expect, name};

/// `NAME ";"`
pub fn ending(alloc: Global, tokens: &[Token]) -> Result<(Name, Span, &[Token]), Failure<'_>>
    ensures { Gives (λ x. Got (x.0, x.1) x.2.now) result (pieces.ending.reader.read tokens.now) }
{
    let (name, rest) = name(alloc, tokens)?;
    match expect(rest, &TokenKind::Semicolon) {
        Ok((end, rest)) => Ok((name, end, rest)),
        Err(failure) => {
            drop(name);
            Err(failure)
        }
    }
}

/// `"}" NAME ";"`
pub fn closing(alloc: Global, tokens: &[Token]) -> Result<(Name, &[Token]), Failure<'_>>
    ensures { Gives (λ x. Got x.0 x.1.now) result (definitions.closing.reader.read tokens.now) }
{
    let (_, rest) = expect(tokens, &TokenKind::CloseBrace)?;
    let (name, _, rest) = ending(alloc, rest)?;
    Ok((name, rest))
}
