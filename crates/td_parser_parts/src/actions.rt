//! Actions, and the statements that hold others.

ghost use Rattle.std.specs.Prelude.{◌≡◌};
ghost use Rattle.td_grammar.specs.Reading.{Got};
ghost use Rattle.td_grammar.specs.Sets.{comes};
ghost use Rattle.td_grammar.specs.Grammar as grammar;
ghost use Rattle.td_grammar.specs.Actions as productions;
ghost use Rattle.td_parser_expr.specs.Giving.{Gives, Reads};
ghost use Rattle.td_parser_parts.specs.Actions as pieces;

use crate::simple_statements::{aborting, condition, returning, store, store_field, variable};
use std::alloc::Global;
use td_ast::actions::{ActionKind, ActionTree, Block, Stmt, StmtKind};
use td_ast::expressions::Expr;
use td_ast::token::{Span, Token, TokenKind};
use td_grammar::limits::BRACES;
use td_parser_expr::failure::Failure;
use td_parser_expr::token::{expect, name, over, peek_is};

// { stmt } "}"
#[cycle(statement)]
fn braced_end(
    alloc: Global,
    braces: u32,
    tokens: &[Token],
) -> Result<(Block, Span, &[Token]), Failure<'_>>
    ensures { Gives (λ x. Got (x.0, x.1) x.2.now) result ((pieces.braced_end_at braces).reader.read tokens.now) }
{
    match statements(alloc, braces, tokens) {
        Ok((block, rest)) => match expect(rest, &TokenKind::CloseBrace) {
            Ok((closing, rest)) => Ok((block, closing, rest)),
            Err(failure) => {
                drop(block);
                Err(failure)
            }
        },
        Err(failure) => Err(failure),
    }
}

/// `"{" { stmt } "}"`, and the span of its last token, where so many braces may be open.
#[cycle(statement)]
fn braced(
    alloc: Global,
    braces: u32,
    tokens: &[Token],
) -> Result<(Block, Span, &[Token]), Failure<'_>>
    ensures { Gives (λ x. Got (x.0, x.1) x.2.now) result ((pieces.braced_at braces).reader.read tokens.now) }
{
    if braces == 0 {
        if peek_is(tokens, &TokenKind::OpenBrace) {
            return Err(Failure::TooDeep(tokens));
        }
        return Err(Failure::Unexpected(tokens));
    }
    let (_, rest) = expect(tokens, &TokenKind::OpenBrace)?;
    braced_end(alloc, braces - 1, rest)
}

// [ "else" braced ]
#[cycle(statement)]
fn maybe_other(
    alloc: Global,
    braces: u32,
    tokens: &[Token],
) -> Result<(Option<(Block, Span)>, &[Token]), Failure<'_>>
    ensures { Gives (λ x. Got x.0 x.1.now) result ((grammar.maybe (pieces.other_at braces)).reader.read tokens.now) }
{
    if !peek_is(tokens, &TokenKind::Else) {
        return Ok((None, tokens));
    }
    let (_, rest) = expect(tokens, &TokenKind::Else)?;
    match braced(alloc, braces, rest) {
        Ok((block, closing, rest)) => Ok((Some((block, closing)), rest)),
        Err(failure) => Err(failure),
    }
}

fn if_of(
    at: Span,
    condition: Expr,
    block: Block,
    closing: Span,
    other: Option<(Block, Span)>,
) -> Stmt
    ensures { result ≡ productions.if_of at condition (block, closing) other }
{
    match other {
        None => Stmt {
            span: over(at, closing),
            kind: StmtKind::If(condition, block),
        },
        Some((other, last)) => Stmt {
            span: over(at, last),
            kind: StmtKind::IfElse(condition, block, other),
        },
    }
}

// braced [ "else" braced ]
#[cycle(statement)]
fn branches(
    alloc: Global,
    braces: u32,
    tokens: &[Token],
) -> Result<(Block, Span, Option<(Block, Span)>, &[Token]), Failure<'_>>
    ensures { Gives (λ x. Got ((x.0, x.1), x.2) x.3.now) result ((pieces.branches_at braces).reader.read tokens.now) }
{
    let (block, closing, rest) = braced(alloc, braces, tokens)?;
    match maybe_other(alloc, braces, rest) {
        Ok((other, rest)) => Ok((block, closing, other, rest)),
        Err(failure) => {
            drop(block);
            Err(failure)
        }
    }
}

// "if" "(" expr ")" braced [ "else" braced ]
#[cycle(statement)]
fn conditional(
    alloc: Global,
    braces: u32,
    tokens: &[Token],
) -> Result<(Stmt, &[Token]), Failure<'_>>
    ensures { Gives (λ x. Got x.0 x.1.now) result ((pieces.if_at braces).reader.read tokens.now) }
{
    let (at, rest) = expect(tokens, &TokenKind::If)?;
    let (_, condition, _, rest) = condition(alloc, rest)?;
    match branches(alloc, braces, rest) {
        Ok((block, closing, other, rest)) => {
            Ok((if_of(at, condition, block, closing, other), rest))
        }
        Err(failure) => {
            drop(condition);
            Err(failure)
        }
    }
}

#[cycle(statement)]
fn any_statement(
    alloc: Global,
    braces: u32,
    tokens: &[Token],
) -> Result<(Stmt, &[Token]), Failure<'_>>
    ensures { Gives (λ x. Got x.0 x.1.now) result ((pieces.statement_at braces).reader.read tokens.now) }
{
    let [first, ..] = tokens else {
        return Err(Failure::Unexpected(tokens));
    };
    match &first.kind {
        TokenKind::Star => store(alloc, tokens),
        TokenKind::Name(_) => store_field(alloc, tokens),
        TokenKind::Var => variable(alloc, tokens),
        TokenKind::If => conditional(alloc, braces, tokens),
        TokenKind::Return => returning(alloc, tokens),
        _ => aborting(tokens),
    }
}

/// A statement, in which so many braces may be open.
#[cycle(statement)]
fn statement(alloc: Global, braces: u32, tokens: &[Token]) -> Result<(Stmt, &[Token]), Failure<'_>>
    ensures { Gives (λ x. Got x.0 x.1.now) result ((productions.statement braces).reader.read tokens.now) }
{
    any_statement(alloc, braces, tokens)
}

fn peek_is_statement(tokens: &[Token]) -> bool
    ensures { result ≡ comes productions.begins tokens.now }
{
    match tokens {
        [] => false,
        [first, ..] => matches!(
            &first.kind,
            TokenKind::Name(_)
                | TokenKind::If
                | TokenKind::Return
                | TokenKind::Abort
                | TokenKind::Var
                | TokenKind::Star
        ),
    }
}

/// `{ stmt }`
#[cycle(statement)]
pub fn statements(
    alloc: Global,
    braces: u32,
    tokens: &[Token],
) -> Result<(Block, &[Token]), Failure<'_>>
    ensures { Gives (λ x. Got x.0 x.1.now) result ((grammar.all_of (productions.statement braces)).reader.read tokens.now) }
{
    let mut block = Block::new(alloc);
    let mut rest = tokens;
    while peek_is_statement(rest) {
        let (next, after) = statement(alloc, braces, rest)?;
        block.push(next)?;
        rest = after;
    }
    Ok((block, rest))
}

fn action_of(kind: &TokenKind) -> Option<ActionKind>
    ensures { result ≡ productions.action_of kind.now }
{
    match kind {
        TokenKind::Act => Some(ActionKind::Act),
        TokenKind::Check => Some(ActionKind::Check),
        TokenKind::OnSuccess => Some(ActionKind::OnSuccess),
        _ => None,
    }
}

// Takes no memory.
fn action_word(tokens: &[Token]) -> Result<(ActionKind, Span, &[Token]), Failure<'_>>
    ensures { Reads (λ x. Got (x.0, x.1) x.2.now) result (pieces.action_word.reader.read tokens.now) }
{
    let [first, rest @ ..] = tokens else {
        return Err(Failure::Unexpected(tokens));
    };
    match action_of(&first.kind) {
        Some(kind) => Ok((kind, first.span, rest)),
        None => Err(Failure::Unexpected(tokens)),
    }
}

fn peek_is_action(tokens: &[Token]) -> bool
    ensures { result ≡ comes pieces.action_begins tokens.now }
{
    match tokens {
        [] => false,
        [first, ..] => matches!(
            &first.kind,
            TokenKind::Act | TokenKind::Check | TokenKind::OnSuccess | TokenKind::Copy
        ),
    }
}

/// `ACTWORD { stmt } "}"`
fn done(alloc: Global, tokens: &[Token]) -> Result<(ActionTree, &[Token]), Failure<'_>>
    ensures { Gives (λ x. Got x.0 x.1.now) result (pieces.done.reader.read tokens.now) }
{
    let (kind, span, rest) = action_word(tokens)?;
    let (statements, _, rest) = braced_end(alloc, BRACES, rest)?;
    let action = ActionTree::Done {
        kind,
        span,
        statements,
    };
    Ok((action, rest))
}

/// `"{:copy" NAME "}"`
fn copied(alloc: Global, tokens: &[Token]) -> Result<(ActionTree, &[Token]), Failure<'_>>
    ensures { Gives (λ x. Got x.0 x.1.now) result (pieces.copied.reader.read tokens.now) }
{
    let (span, rest) = expect(tokens, &TokenKind::Copy)?;
    let (name, rest) = name(alloc, rest)?;
    let (_, after) = expect(rest, &TokenKind::CloseBrace)?;
    Ok((ActionTree::Copied { span, name }, after))
}

/// `ACTWORD { stmt } "}" | "{:copy" NAME "}"`
#[tactic(auto, unfolding(td_grammar::specs::Actions::action))]
fn action(alloc: Global, tokens: &[Token]) -> Result<(ActionTree, &[Token]), Failure<'_>>
    ensures { Gives (λ x. Got x.0 x.1.now) result (productions.action.reader.read tokens.now) }
{
    match tokens {
        [
            Token {
                kind: TokenKind::Act | TokenKind::Check | TokenKind::OnSuccess,
                ..
            },
            ..
        ] => done(alloc, tokens),
        _ => copied(alloc, tokens),
    }
}

#[tactic(auto, unfolding(td_grammar::specs::Actions::action))]
pub fn maybe_action(
    alloc: Global,
    tokens: &[Token],
) -> Result<(Option<ActionTree>, &[Token]), Failure<'_>>
    ensures { Gives (λ x. Got x.0 x.1.now) result ((grammar.maybe productions.action).reader.read tokens.now) }
{
    if !peek_is_action(tokens) {
        return Ok((None, tokens));
    }
    let (action, rest) = action(alloc, tokens)?;
    Ok((Some(action), rest))
}
