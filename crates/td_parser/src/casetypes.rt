//! Casetypes.

ghost use Rattle.td_grammar.specs.Reading.{Got, with_first};
ghost use Rattle.td_grammar.specs.Grammar as grammar;
ghost use Rattle.td_grammar.specs.Sequences as sequences;
ghost use Rattle.td_grammar.specs.Definitions as definitions;
ghost use Rattle.td_parser_expr.specs.Giving.{Gives, Reads};
ghost use Rattle.td_parser.specs.Pieces as pieces;

use crate::closing::closing;
use std::alloc::Global;
use td_ast::definitions::{CaseTree, CasetypeTree, Def};
use td_ast::expressions::Expr;
use td_ast::fields::FieldTree;
use td_ast::names::Name;
use td_ast::parameters::HeadTree;
use td_ast::token::{Span, Token, TokenKind};
use td_num::items::Items;
use td_parser_expr::failure::Failure;
use td_parser_expr::token::{expect, name, peek_is};
use td_parser_expr::whole::expression;
use td_parser_parts::fields::fields;
use td_parser_parts::parameters::{constant, head};

// Where a value is let go, each way through its variants is a way through the function. So what has many is let go by a call, and
// the result that holds it is matched.

/// `"case" const ":" field { field }`
#[tactic(auto, unfolding(td_grammar::specs::Definitions::case_tree))]
fn case_tree(alloc: Global, tokens: &[Token]) -> Result<(CaseTree, &[Token]), Failure<'_>>
    ensures { Gives (λ x. Got x.0 x.1.now) result (definitions.case_tree.reader.read tokens.now) }
{
    let (_, rest) = expect(tokens, &TokenKind::Case)?;
    let (constant, rest) = constant(alloc, rest)?;
    let (_, rest) = expect(rest, &TokenKind::Colon)?;
    let (fields, rest) = fields(alloc, rest)?;
    Ok((CaseTree { constant, fields }, rest))
}

// The first case, and those after it.
#[tactic(auto, unfolding(td_grammar::specs::Definitions::case_tree))]
fn cases_from(
    alloc: Global,
    first: CaseTree,
    tokens: &[Token],
) -> Result<(Items<CaseTree>, &[Token]), Failure<'_>>
    ensures { Gives (λ x. Got x.0 x.1.now) result (with_first first ((grammar.all_of definitions.case_tree).reader.read tokens.now)) }
{
    let mut cases = Items::new(alloc);
    cases.push(first)?;
    let mut rest = tokens;
    while peek_is(rest, &TokenKind::Case) {
        let (next, after) = case_tree(alloc, rest)?;
        cases.push(next)?;
        rest = after;
    }
    Ok((cases, rest))
}

/// `case { case }`
fn some_cases(alloc: Global, tokens: &[Token]) -> Result<(Items<CaseTree>, &[Token]), Failure<'_>>
    ensures { Gives (λ x. Got x.0 x.1.now) result ((sequences.some_of definitions.case_tree).reader.read tokens.now) }
{
    let (first, rest) = case_tree(alloc, tokens)?;
    cases_from(alloc, first, rest)
}

/// `["default" ":" field { field }]`
fn maybe_default(
    alloc: Global,
    tokens: &[Token],
) -> Result<(Option<Items<FieldTree>>, &[Token]), Failure<'_>>
    ensures { Gives (λ x. Got x.0 x.1.now) result ((grammar.maybe definitions.default_case).reader.read tokens.now) }
{
    if !peek_is(tokens, &TokenKind::Default) {
        return Ok((None, tokens));
    }
    let (_, rest) = expect(tokens, &TokenKind::Default)?;
    let (_, rest) = expect(rest, &TokenKind::Colon)?;
    let (fields, rest) = fields(alloc, rest)?;
    Ok((Some(fields), rest))
}

// ")" "{". Takes no memory.
fn opened(tokens: &[Token]) -> Result<(Span, Span, &[Token]), Failure<'_>>
    ensures { Reads (λ x. Got (x.0, x.1) x.2.now) result (pieces.opened.reader.read tokens.now) }
{
    let (closing, rest) = expect(tokens, &TokenKind::CloseParen)?;
    let (opening, rest) = expect(rest, &TokenKind::OpenBrace)?;
    Ok((closing, opening, rest))
}

/// `"switch" "(" expr ")" "{"`
fn subject(alloc: Global, tokens: &[Token]) -> Result<(Expr, &[Token]), Failure<'_>>
    ensures { Gives (λ x. Got x.0 x.1.now) result (definitions.subject.reader.read tokens.now) }
{
    let (_, rest) = expect(tokens, &TokenKind::Switch)?;
    let (_, rest) = expect(rest, &TokenKind::OpenParen)?;
    match expression(alloc, rest) {
        Ok((value, rest)) => match opened(rest) {
            Ok((_, _, rest)) => Ok((value, rest)),
            Err(failure) => {
                drop(value);
                Err(failure)
            }
        },
        Err(failure) => Err(failure),
    }
}

// [default_case] "}"
fn cases_end(
    alloc: Global,
    tokens: &[Token],
) -> Result<(Option<Items<FieldTree>>, Span, &[Token]), Failure<'_>>
    ensures { Gives (λ x. Got (x.0, x.1) x.2.now) result (pieces.cases_end.reader.read tokens.now) }
{
    match maybe_default(alloc, tokens) {
        Ok((default, rest)) => match expect(rest, &TokenKind::CloseBrace) {
            Ok((end, rest)) => Ok((default, end, rest)),
            Err(failure) => {
                drop(default);
                Err(failure)
            }
        },
        Err(failure) => Err(failure),
    }
}

// case { case } [default_case] "}"
fn cases_on(
    alloc: Global,
    tokens: &[Token],
) -> Result<(Items<CaseTree>, Option<Items<FieldTree>>, Span, &[Token]), Failure<'_>>
    ensures { Gives (λ x. Got (x.0, (x.1, x.2)) x.3.now) result (pieces.cases_on.reader.read tokens.now) }
{
    match some_cases(alloc, tokens) {
        Ok((cases, rest)) => match cases_end(alloc, rest) {
            Ok((default, end, rest)) => Ok((cases, default, end, rest)),
            Err(failure) => {
                drop(cases);
                Err(failure)
            }
        },
        Err(failure) => Err(failure),
    }
}

/// What is in the braces of a casetype.
#[derive(Drop)]
struct Switch {
    subject: Expr,
    cases: Items<CaseTree>,
    default: Option<Items<FieldTree>>,
}

/// `subject case { case } [default_case] "}"`
#[tactic(auto, unfolding(td_grammar::specs::Definitions::cases))]
fn cases(alloc: Global, tokens: &[Token]) -> Result<(Switch, &[Token]), Failure<'_>>
    ensures { Gives (λ x. Got (x.0.subject, x.0.cases, x.0.default) x.1.now) result (definitions.cases.reader.read tokens.now) }
{
    match subject(alloc, tokens) {
        Ok((subject, rest)) => match cases_on(alloc, rest) {
            Ok((cases, default, _, rest)) => {
                let cases = Switch {
                    subject,
                    cases,
                    default,
                };
                Ok((cases, rest))
            }
            Err(failure) => {
                drop(subject);
                Err(failure)
            }
        },
        Err(failure) => Err(failure),
    }
}

// "{" cases closing
fn casetype_end(
    alloc: Global,
    tokens: &[Token],
) -> Result<(Span, Switch, Name, &[Token]), Failure<'_>>
    ensures { Gives (λ x. Got (x.0, ((x.1.subject, x.1.cases, x.1.default), x.2)) x.3.now) result (pieces.casetype_end.reader.read tokens.now) }
{
    let (opening, rest) = expect(tokens, &TokenKind::OpenBrace)?;
    match cases(alloc, rest) {
        Ok((cases, rest)) => match closing(alloc, rest) {
            Ok((name, rest)) => Ok((opening, cases, name, rest)),
            Err(failure) => {
                drop(cases);
                Err(failure)
            }
        },
        Err(failure) => Err(failure),
    }
}

// NAME head "{" cases closing
fn casetype_rest(
    alloc: Global,
    tokens: &[Token],
) -> Result<(Name, HeadTree, Span, Switch, Name, &[Token]), Failure<'_>>
    ensures { Gives (λ x. Got (x.0, (x.1, (x.2, ((x.3.subject, x.3.cases, x.3.default), x.4)))) x.5.now) result (pieces.casetype_rest.reader.read tokens.now) }
{
    let (tag, rest) = name(alloc, tokens)?;
    match head(alloc, rest) {
        Ok((head, rest)) => match casetype_end(alloc, rest) {
            Ok((opening, cases, name, rest)) => Ok((tag, head, opening, cases, name, rest)),
            Err(failure) => {
                drop(tag);
                drop(head);
                Err(failure)
            }
        },
        Err(failure) => {
            drop(tag);
            Err(failure)
        }
    }
}

/// A casetype, after `["entrypoint"]`.
#[tactic(auto, unfolding(td_grammar::specs::Definitions::casetype))]
pub fn casetype(
    alloc: Global,
    entry: bool,
    tokens: &[Token],
) -> Result<(Def, &[Token]), Failure<'_>>
    ensures { Gives (λ x. Got x.0 x.1.now) result ((pieces.casetype_at entry).reader.read tokens.now) }
{
    let (_, rest) = expect(tokens, &TokenKind::Casetype)?;
    match casetype_rest(alloc, rest) {
        Ok((tag, head, _, cases, name, rest)) => {
            let definition = Def::Casetype(CasetypeTree {
                entry,
                tag,
                head,
                subject: cases.subject,
                cases: cases.cases,
                default: cases.default,
                name,
            });
            Ok((definition, rest))
        }
        Err(failure) => Err(failure),
    }
}
