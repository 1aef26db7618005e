//! Output records.

ghost use Rattle.std.specs.Prelude.{◌≡◌};
ghost use Rattle.td_ast.specs.declared.definitions.Def.TheVariants as defs;
ghost use Rattle.td_grammar.specs.Reading.{Got, with_first};
ghost use Rattle.td_grammar.specs.Sets.{comes};
ghost use Rattle.td_grammar.specs.Grammar as grammar;
ghost use Rattle.td_grammar.specs.Sequences as sequences;
ghost use Rattle.td_grammar.specs.Definitions as definitions;
ghost use Rattle.td_parser_expr.specs.Giving.{Gives, Reads};
ghost use Rattle.td_parser.specs.Pieces as pieces;

use crate::closing::{closing, ending};
use std::alloc::Global;
use td_ast::definitions::{Def, OutputTree, SlotKind, SlotTree};
use td_ast::names::Name;
use td_ast::token::{Span, Token, TokenKind};
use td_num::items::Items;
use td_parser_expr::failure::Failure;
use td_parser_expr::token::{expect, name, number_type};

// Where a value is let go, each way through its variants is a way through the function. So what has many is let go by a call, and
// the result that holds it is matched.

/// `INT | "PUINT8"`. Takes no memory.
fn slot_kind(tokens: &[Token]) -> Result<(SlotKind, &[Token]), Failure<'_>>
    ensures { Reads (λ x. Got x.0 x.1.now) result (pieces.slot_kind.reader.read tokens.now) }
{
    match tokens {
        [
            Token {
                kind: TokenKind::Int(_),
                ..
            },
            ..
        ] => {
            let (number, rest) = number_type(tokens)?;
            Ok((SlotKind::Number(number), rest))
        }
        _ => {
            let (at, rest) = expect(tokens, &TokenKind::Pointer)?;
            Ok((SlotKind::Pointer(at), rest))
        }
    }
}

/// `(INT | "PUINT8") NAME ";"`
#[tactic(auto, unfolding(td_grammar::specs::Definitions::slot))]
fn slot(alloc: Global, tokens: &[Token]) -> Result<(SlotTree, &[Token]), Failure<'_>>
    ensures { Gives (λ x. Got x.0 x.1.now) result (definitions.slot.reader.read tokens.now) }
{
    let (kind, rest) = slot_kind(tokens)?;
    match ending(alloc, rest) {
        Ok((name, _, rest)) => Ok((SlotTree { kind, name }, rest)),
        Err(failure) => {
            drop(kind);
            Err(failure)
        }
    }
}

fn peek_is_slot(tokens: &[Token]) -> bool
    ensures { result ≡ comes pieces.slot_begins tokens.now }
{
    match tokens {
        [] => false,
        [first, ..] => matches!(&first.kind, TokenKind::Int(_) | TokenKind::Pointer),
    }
}

// The first slot, and those after it.
fn slots_from(
    alloc: Global,
    first: SlotTree,
    tokens: &[Token],
) -> Result<(Items<SlotTree>, &[Token]), Failure<'_>>
    ensures { Gives (λ x. Got x.0 x.1.now) result (with_first first ((grammar.all_of definitions.slot).reader.read tokens.now)) }
{
    let mut slots = Items::new(alloc);
    slots.push(first)?;
    let mut rest = tokens;
    while peek_is_slot(rest) {
        let (next, after) = slot(alloc, rest)?;
        slots.push(next)?;
        rest = after;
    }
    Ok((slots, rest))
}

/// `slot { slot }`
fn slots(alloc: Global, tokens: &[Token]) -> Result<(Items<SlotTree>, &[Token]), Failure<'_>>
    ensures { Gives (λ x. Got x.0 x.1.now) result ((sequences.some_of definitions.slot).reader.read tokens.now) }
{
    let (first, rest) = slot(alloc, tokens)?;
    slots_from(alloc, first, rest)
}

// "{" slot { slot } closing
fn output_end(
    alloc: Global,
    tokens: &[Token],
) -> Result<(Span, Items<SlotTree>, Name, &[Token]), Failure<'_>>
    ensures { Gives (λ x. Got (x.0, (x.1, x.2)) x.3.now) result (pieces.output_end.reader.read tokens.now) }
{
    let (opening, rest) = expect(tokens, &TokenKind::OpenBrace)?;
    match slots(alloc, rest) {
        Ok((slots, rest)) => match closing(alloc, rest) {
            Ok((name, rest)) => Ok((opening, slots, name, rest)),
            Err(failure) => {
                drop(slots);
                Err(failure)
            }
        },
        Err(failure) => Err(failure),
    }
}

// NAME "{" slot { slot } closing
fn output_body(
    alloc: Global,
    tokens: &[Token],
) -> Result<(Name, Items<SlotTree>, Name, &[Token]), Failure<'_>>
    ensures { Gives (λ x. Got (defs.Output (record { tag = x.0; slots = x.1; name = x.2 })) x.3.now) result (pieces.output_body.reader.read tokens.now) }
{
    let (tag, rest) = name(alloc, tokens)?;
    match output_end(alloc, rest) {
        Ok((_, slots, name, rest)) => Ok((tag, slots, name, rest)),
        Err(failure) => {
            drop(tag);
            Err(failure)
        }
    }
}

// An output record, by its parts.
#[tactic(auto, unfolding(td_grammar::specs::Definitions::output))]
fn output_parts(
    alloc: Global,
    tokens: &[Token],
) -> Result<(Name, Items<SlotTree>, Name, &[Token]), Failure<'_>>
    ensures { Gives (λ x. Got (defs.Output (record { tag = x.0; slots = x.1; name = x.2 })) x.3.now) result (definitions.output.reader.read tokens.now) }
{
    let (_, rest) = expect(tokens, &TokenKind::Output)?;
    let (_, rest) = expect(rest, &TokenKind::Typedef)?;
    let (_, rest) = expect(rest, &TokenKind::Struct)?;
    output_body(alloc, rest)
}

/// An output record.
pub fn output(alloc: Global, tokens: &[Token]) -> Result<(Def, &[Token]), Failure<'_>>
    ensures { Gives (λ x. Got x.0 x.1.now) result (definitions.output.reader.read tokens.now) }
{
    match output_parts(alloc, tokens) {
        Ok((tag, slots, name, rest)) => Ok((Def::Output(OutputTree { tag, slots, name }), rest)),
        Err(failure) => Err(failure),
    }
}
