//! Structs.

ghost use Rattle.td_ast.specs.declared.definitions.Def.TheVariants as defs;
ghost use Rattle.td_grammar.specs.Reading.{Got};
ghost use Rattle.td_grammar.specs.Definitions as definitions;
ghost use Rattle.td_parser_expr.specs.Giving.{Gives};
ghost use Rattle.td_parser.specs.Pieces as pieces;

use crate::closing::closing;
use std::alloc::Global;
use td_ast::definitions::{Def, StructTree};
use td_ast::fields::FieldTree;
use td_ast::names::Name;
use td_ast::parameters::HeadTree;
use td_ast::token::{Span, Token, TokenKind};
use td_num::items::Items;
use td_parser_expr::failure::Failure;
use td_parser_expr::token::{expect, name};
use td_parser_parts::fields::fields;
use td_parser_parts::parameters::head;

// Where a value is let go, each way through its variants is a way through the function. So what has many is let go by a call, and
// the result that holds it is matched.

// "{" field { field } closing
fn struct_body(
    alloc: Global,
    tokens: &[Token],
) -> Result<(Span, Items<FieldTree>, Name, &[Token]), Failure<'_>>
    ensures { Gives (λ x. Got (x.0, (x.1, x.2)) x.3.now) result (pieces.struct_body.reader.read tokens.now) }
{
    let (opening, rest) = expect(tokens, &TokenKind::OpenBrace)?;
    match fields(alloc, rest) {
        Ok((fields, rest)) => match closing(alloc, rest) {
            Ok((name, rest)) => Ok((opening, fields, name, rest)),
            Err(failure) => {
                drop(fields);
                Err(failure)
            }
        },
        Err(failure) => Err(failure),
    }
}

// NAME head "{" field { field } closing
#[tactic(auto, unfolding(td_grammar::specs::Definitions::struct_rest))]
fn struct_rest(
    alloc: Global,
    tokens: &[Token],
) -> Result<(Name, HeadTree, Items<FieldTree>, Name, &[Token]), Failure<'_>>
    ensures { Gives (λ x. Got (λ entry. defs.Struct (record { entry = entry; tag = x.0; head = x.1; fields = x.2; name = x.3 })) x.4.now) result (definitions.struct_rest.reader.read tokens.now) }
{
    let (tag, rest) = name(alloc, tokens)?;
    match head(alloc, rest) {
        Ok((head, rest)) => match struct_body(alloc, rest) {
            Ok((_, fields, name, rest)) => Ok((tag, head, fields, name, rest)),
            Err(failure) => {
                drop(tag);
                drop(head);
                Err(failure)
            }
        },
        Err(failure) => {
            drop(tag);
            Err(failure)
        }
    }
}

/// `"struct" ..`, after `["entrypoint"] "typedef"`.
pub fn structure(
    alloc: Global,
    entry: bool,
    tokens: &[Token],
) -> Result<(Def, &[Token]), Failure<'_>>
    ensures { Gives (λ x. Got x.0 x.1.now) result ((pieces.structure_at entry).reader.read tokens.now) }
{
    let (_, rest) = expect(tokens, &TokenKind::Struct)?;
    match struct_rest(alloc, rest) {
        Ok((tag, head, fields, name, rest)) => {
            let definition = Def::Struct(StructTree {
                entry,
                tag,
                head,
                fields,
                name,
            });
            Ok((definition, rest))
        }
        Err(failure) => Err(failure),
    }
}
