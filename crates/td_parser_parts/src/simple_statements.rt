//! Statements that hold no others, and the condition of one that does.

ghost use Rattle.std.specs.Prelude.{◌≡◌, true, IfErr};
ghost use Rattle.td_grammar.specs.Reading.{Got};
ghost use Rattle.td_grammar.specs.Sets.{comes};
ghost use Rattle.td_grammar.specs.Ahead as ahead;
ghost use Rattle.td_grammar.specs.Actions as productions;
ghost use Rattle.td_parser_expr.specs.Giving.{Gives, Reads};
ghost use Rattle.td_parser_expr.specs.Memory.{OnMemory};
ghost use Rattle.td_parser_parts.specs.Actions as pieces;

use std::alloc::Global;
use td_ast::actions::{Assigned, Stmt, StmtKind};
use td_ast::expressions::Expr;
use td_ast::names::Name;
use td_ast::token::{Span, Token, TokenKind};
use td_parser_expr::failure::Failure;
use td_parser_expr::token::{expect, name, over};
use td_parser_expr::whole::expression;

fn peek_is_expression(tokens: &[Token]) -> bool
    ensures { result ≡ comes ahead.begins tokens.now }
{
    match tokens {
        [] => false,
        [first, ..] => matches!(
            &first.kind,
            TokenKind::Name(_)
                | TokenKind::Number(_, _)
                | TokenKind::Sizeof
                | TokenKind::FieldPos
                | TokenKind::IsRangeOkay
                | TokenKind::True
                | TokenKind::False
                | TokenKind::Tilde
                | TokenKind::Bang
                | TokenKind::OpenParen
        ),
    }
}

/// `expr | "field_ptr"`. `Failure::OutOfMemory`: an expression begins, and there was no memory for it.
#[tactic(auto, unfolding(td_grammar::specs::Actions::assigned, td_grammar::specs::Expressions::expr))]
fn assigned(alloc: Global, tokens: &[Token]) -> Result<(Assigned, &[Token]), Failure<'_>>
    ensures reading { Gives (λ x. Got x.0 x.1.now) result (productions.assigned.reader.read tokens.now) }
    ensures memory { IfErr result (OnMemory (comes ahead.begins tokens.now ≡ true)) }
{
    if peek_is_expression(tokens) {
        let (value, rest) = expression(alloc, tokens)?;
        return Ok((Assigned::Value(value), rest));
    }
    let (at, rest) = expect(tokens, &TokenKind::FieldPtr)?;
    Ok((Assigned::FieldPtr(at), rest))
}

// Where an expression, a name or a block is let go, each way through its parts is a way through the function. So it is let go by a
// call where what comes after it fails.

// "=" rhs ";"
fn assignment(
    alloc: Global,
    tokens: &[Token],
) -> Result<(Span, Assigned, Span, &[Token]), Failure<'_>>
    ensures { Gives (λ x. Got (x.0, (x.1, x.2)) x.3.now) result (pieces.assignment.reader.read tokens.now) }
{
    let (assign, rest) = expect(tokens, &TokenKind::Assign)?;
    let (value, rest) = assigned(alloc, rest)?;
    match expect(rest, &TokenKind::Semicolon) {
        Ok((end, rest)) => Ok((assign, value, end, rest)),
        Err(failure) => {
            drop(value);
            Err(failure)
        }
    }
}

// "*" NAME "=" rhs ";"
pub(crate) fn store(alloc: Global, tokens: &[Token]) -> Result<(Stmt, &[Token]), Failure<'_>>
    ensures { Gives (λ x. Got x.0 x.1.now) result (pieces.store.reader.read tokens.now) }
{
    let (at, rest) = expect(tokens, &TokenKind::Star)?;
    let (cell, rest) = name(alloc, rest)?;
    match assignment(alloc, rest) {
        Ok((_, value, end, rest)) => {
            let statement = Stmt {
                span: over(at, end),
                kind: StmtKind::Store(cell, value),
            };
            Ok((statement, rest))
        }
        Err(failure) => {
            drop(cell);
            Err(failure)
        }
    }
}

// NAME "->" NAME "=" rhs ";"
pub(crate) fn store_field(alloc: Global, tokens: &[Token]) -> Result<(Stmt, &[Token]), Failure<'_>>
    ensures { Gives (λ x. Got x.0 x.1.now) result (pieces.store_field.reader.read tokens.now) }
{
    let (cells, rest) = name(alloc, tokens)?;
    let (_, rest) = expect(rest, &TokenKind::Arrow)?;
    let (field, rest) = name(alloc, rest)?;
    match assignment(alloc, rest) {
        Ok((_, value, end, rest)) => {
            let statement = Stmt {
                span: over(cells.span, end),
                kind: StmtKind::StoreField(cells, field, value),
            };
            Ok((statement, rest))
        }
        Err(failure) => {
            drop(field);
            drop(cells);
            Err(failure)
        }
    }
}

// "=" "*" NAME ";"
fn load(alloc: Global, tokens: &[Token]) -> Result<(Span, Span, Name, Span, &[Token]), Failure<'_>>
    ensures { Gives (λ x. Got (x.0, (x.1, (x.2, x.3))) x.4.now) result (pieces.load.reader.read tokens.now) }
{
    let (assign, rest) = expect(tokens, &TokenKind::Assign)?;
    let (star, rest) = expect(rest, &TokenKind::Star)?;
    let (cell, rest) = name(alloc, rest)?;
    match expect(rest, &TokenKind::Semicolon) {
        Ok((end, rest)) => Ok((assign, star, cell, end, rest)),
        Err(failure) => {
            drop(cell);
            Err(failure)
        }
    }
}

// "var" NAME "=" "*" NAME ";"
pub(crate) fn variable(alloc: Global, tokens: &[Token]) -> Result<(Stmt, &[Token]), Failure<'_>>
    ensures { Gives (λ x. Got x.0 x.1.now) result (pieces.variable.reader.read tokens.now) }
{
    let (at, rest) = expect(tokens, &TokenKind::Var)?;
    let (local, rest) = name(alloc, rest)?;
    match load(alloc, rest) {
        Ok((_, star, cell, end, rest)) => {
            let statement = Stmt {
                span: over(at, end),
                kind: StmtKind::Var(local, star, cell),
            };
            Ok((statement, rest))
        }
        Err(failure) => {
            drop(local);
            Err(failure)
        }
    }
}

// "return" expr ";"
pub(crate) fn returning(alloc: Global, tokens: &[Token]) -> Result<(Stmt, &[Token]), Failure<'_>>
    ensures { Gives (λ x. Got x.0 x.1.now) result (pieces.returning.reader.read tokens.now) }
{
    let (at, rest) = expect(tokens, &TokenKind::Return)?;
    let (value, rest) = expression(alloc, rest)?;
    match expect(rest, &TokenKind::Semicolon) {
        Ok((end, rest)) => {
            let statement = Stmt {
                span: over(at, end),
                kind: StmtKind::Return(value),
            };
            Ok((statement, rest))
        }
        Err(failure) => {
            drop(value);
            Err(failure)
        }
    }
}

// "abort" ";". Takes no memory.
pub(crate) fn aborting(tokens: &[Token]) -> Result<(Stmt, &[Token]), Failure<'_>>
    ensures { Reads (λ x. Got x.0 x.1.now) result (pieces.aborting.reader.read tokens.now) }
{
    let (at, rest) = expect(tokens, &TokenKind::Abort)?;
    let (end, rest) = expect(rest, &TokenKind::Semicolon)?;
    let statement = Stmt {
        span: over(at, end),
        kind: StmtKind::Abort,
    };
    Ok((statement, rest))
}

// "(" expr ")"
pub(crate) fn condition(
    alloc: Global,
    tokens: &[Token],
) -> Result<(Span, Expr, Span, &[Token]), Failure<'_>>
    ensures { Gives (λ x. Got (x.0, (x.1, x.2)) x.3.now) result (pieces.condition.reader.read tokens.now) }
{
    let (opening, rest) = expect(tokens, &TokenKind::OpenParen)?;
    let (value, rest) = expression(alloc, rest)?;
    match expect(rest, &TokenKind::CloseParen) {
        Ok((closing, rest)) => Ok((opening, value, closing, rest)),
        Err(failure) => {
            drop(value);
            Err(failure)
        }
    }
}
