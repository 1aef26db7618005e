//! Whole expressions, within their limit.

ghost use Rattle.std.specs.Prelude.{◌≡◌, ◌<◌, length};
ghost use Rattle.td_grammar.specs.Reading.{Got, judged};
ghost use Rattle.td_grammar.specs.Expressions as productions;
ghost use Rattle.td_grammar.specs.Scan as spec;
ghost use Rattle.td_parser_expr.specs.Giving.{Gives};

use crate::expressions::expr;
use crate::failure::Failure;
use crate::scan::scan;
use std::alloc::Global;
use td_ast::expressions::Expr;
use td_ast::token::Token;
use td_grammar::limits::OPERATORS;

// Reads up to and with the token that would be one too many.
fn cut<'a>(
    alloc: Global,
    tokens: &'a [Token],
    over: &'a [Token],
) -> Result<(Expr, &'a [Token]), Failure<'a>>
    requires some { 0 < length over.now }
    requires end { spec.scan 0 OPERATORS tokens.now ≡ over.now }
    ensures { Gives (λ x. Got x.0 x.1.now) result (judged over.now ((productions.nested_expr OPERATORS).reader.read tokens.now)) }
{
    let len = tokens.len() - over.len() + 1;
    match expr(alloc, OPERATORS, &tokens[..len]) {
        Ok((e, rest)) => {
            if rest.is_empty() {
                // by a call, as each way through its variants, where it is let go, is a way through the function
                drop(e);
                return Err(Failure::TooDeep(over));
            }
            Ok((e, &tokens[len - rest.len()..]))
        }
        Err(Failure::Unexpected(rest)) => {
            if rest.is_empty() {
                return Err(Failure::TooDeep(over));
            }
            Err(Failure::Unexpected(&tokens[len - rest.len()..]))
        }
        Err(Failure::OutOfMemory) => Err(Failure::OutOfMemory),
        Err(Failure::TooDeep(_)) => Err(Failure::TooDeep(over)),
    }
}

/// The expression at the front of the tokens, of at most 256 operators and opening parentheses.
#[tactic(auto, unfolding(td_grammar::specs::Expressions::expr))]
pub fn expression(alloc: Global, tokens: &[Token]) -> Result<(Expr, &[Token]), Failure<'_>>
    ensures { Gives (λ x. Got x.0 x.1.now) result (productions.expr.reader.read tokens.now) }
{
    match scan(tokens, OPERATORS) {
        None => expr(alloc, OPERATORS, tokens),
        Some(over) => cut(alloc, tokens, over),
    }
}
