//! Operators of one operand.

ghost use Rattle.std.specs.Prelude.{◌≡◌, IfOk};
ghost use Rattle.td_ast.specs.Trees.{span_of, over, Unary};
ghost use Rattle.td_grammar.specs.Reading.{Got};
ghost use Rattle.td_grammar.specs.Sets.{comes};
ghost use Rattle.td_grammar.specs.Grammar as grammar;
ghost use Rattle.td_grammar.specs.Operators as operators;
ghost use Rattle.td_grammar.specs.Expressions as productions;
ghost use Rattle.td_parser_expr.specs.Giving.{Gives, Reads};

use crate::failure::Failure;
use crate::token::{over, peek_is};
use std::alloc::{AllocError, Global};
use td_ast::expressions::{Expr, ExprKind, UnaryOperator};
use td_ast::token::{Span, Token, TokenKind};

fn unary_operator_of(kind: &TokenKind) -> Option<UnaryOperator>
    ensures { result ≡ operators.unary_operator_of kind.now }
{
    match kind {
        TokenKind::Bang => Some(UnaryOperator::Not),
        TokenKind::Tilde => Some(UnaryOperator::Complement),
        _ => None,
    }
}

// Takes no memory.
fn unary_operator(tokens: &[Token]) -> Result<(UnaryOperator, Span, &[Token]), Failure<'_>>
    ensures { Reads (λ x. Got (x.0, x.1) x.2.now) result (operators.unary_operator.reader.read tokens.now) }
{
    let [first, rest @ ..] = tokens else {
        return Err(Failure::Unexpected(tokens));
    };
    match unary_operator_of(&first.kind) {
        Some(operator) => Ok((operator, first.span, rest)),
        None => Err(Failure::Unexpected(tokens)),
    }
}

fn peek_is_unary(tokens: &[Token]) -> bool
    ensures { result ≡ comes operators.unary_operator.reader.begins tokens.now }
{
    peek_is(tokens, &TokenKind::Tilde) || peek_is(tokens, &TokenKind::Bang)
}

/// `{ "!" | "~" }`
pub fn unary_operators(
    alloc: Global,
    tokens: &[Token],
) -> Result<(Vec<(UnaryOperator, Span)>, &[Token]), Failure<'_>>
    ensures { Gives (λ x. Got x.0.items x.1.now) result ((grammar.all_of operators.unary_operator).reader.read tokens.now) }
{
    let mut operators = Vec::new(alloc);
    let mut rest = tokens;
    while peek_is_unary(rest) {
        let (operator, at, after) = unary_operator(rest)?;
        operators.push((operator, at))?;
        rest = after;
    }
    Ok((operators, rest))
}

fn unary(
    alloc: Global,
    operator: UnaryOperator,
    at: Span,
    operand: Expr,
) -> Result<Expr, AllocError>
    ensures { IfOk result (λ e. e ≡ Unary (over at (span_of operand)) operator at operand) }
{
    let span = over(at, operand.span);
    let operand = Box::new(alloc, operand)?;
    Ok(Expr {
        span,
        kind: ExprKind::Unary(operator, at, operand),
    })
}

/// The operators before the operand, the last next to it.
pub fn applied(
    alloc: Global,
    operators: Vec<(UnaryOperator, Span)>,
    operand: Expr,
) -> Result<Expr, AllocError>
    ensures { IfOk result (λ e. e ≡ productions.applied operators.items operand) }
{
    let mut left = operators;
    let mut expr = operand;
    while let Some((operator, at)) = left.pop() {
        expr = unary(alloc, operator, at, expr)?;
    }
    Ok(expr)
}
