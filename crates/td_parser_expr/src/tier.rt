//! Levels of operators of two operands.

ghost use Rattle.std.specs.Prelude.{◌≡◌, false, IfNone, is_none};
ghost use Rattle.td_ast.specs.Kinds.{number_of_kind};
ghost use Rattle.td_grammar.specs.Reading.{Got};
ghost use Rattle.td_grammar.specs.Sets.{comes};
ghost use Rattle.td_parser_expr.specs.Giving.{Reads};
ghost use Rattle.td_parser_expr.specs.Tiers as tiers;

use crate::failure::Failure;
use td_ast::expressions::BinaryOperator;
use td_ast::token::{Span, Token, TokenKind};

/// A level of operators of two operands, the tightest first.
#[derive(Clone, Copy, PartialEq, Eq)]
pub enum Tier {
    Product,
    Sum,
    Shift,
    Order,
    Equality,
    BitAnd,
    BitXor,
    BitOr,
    And,
    Or,
}

// What the token stands for as an operator of the level.
fn operator_of(tier: Tier, kind: &TokenKind) -> Option<BinaryOperator>
    ensures { result ≡ tiers.meaning_at tier kind.now }
{
    match tier {
        Tier::Product => match kind {
            TokenKind::Star => Some(BinaryOperator::Multiply),
            TokenKind::Slash => Some(BinaryOperator::Divide),
            TokenKind::Percent => Some(BinaryOperator::Remainder),
            _ => None,
        },
        Tier::Sum => match kind {
            TokenKind::Plus => Some(BinaryOperator::Add),
            TokenKind::Minus => Some(BinaryOperator::Subtract),
            _ => None,
        },
        Tier::Shift => match kind {
            TokenKind::ShiftLeft => Some(BinaryOperator::ShiftLeft),
            TokenKind::ShiftRight => Some(BinaryOperator::ShiftRight),
            _ => None,
        },
        Tier::Order => match kind {
            TokenKind::Less => Some(BinaryOperator::Less),
            TokenKind::LessEqual => Some(BinaryOperator::LessEqual),
            TokenKind::Greater => Some(BinaryOperator::Greater),
            TokenKind::GreaterEqual => Some(BinaryOperator::GreaterEqual),
            _ => None,
        },
        Tier::Equality => match kind {
            TokenKind::EqualEqual => Some(BinaryOperator::Equal),
            TokenKind::NotEqual => Some(BinaryOperator::NotEqual),
            _ => None,
        },
        Tier::BitAnd => match kind {
            TokenKind::Ampersand => Some(BinaryOperator::BitAnd),
            _ => None,
        },
        Tier::BitXor => match kind {
            TokenKind::Caret => Some(BinaryOperator::BitXor),
            _ => None,
        },
        Tier::BitOr => match kind {
            TokenKind::Bar => Some(BinaryOperator::BitOr),
            _ => None,
        },
        Tier::And => match kind {
            TokenKind::AndAnd => Some(BinaryOperator::And),
            _ => None,
        },
        Tier::Or => match kind {
            TokenKind::OrOr => Some(BinaryOperator::Or),
            _ => None,
        },
    }
}

/// Whether an operator of the level comes next.
pub fn peek_is_operator(tier: Tier, tokens: &[Token]) -> bool
    ensures { result ≡ tiers.comes_at tier tokens.now }
{
    match tokens {
        [first, ..] => operator_of(tier, &first.kind).is_some(),
        [] => false,
    }
}

/// An operator of the level. Takes no memory.
pub fn operator(
    tier: Tier,
    tokens: &[Token],
) -> Result<(BinaryOperator, Span, &[Token]), Failure<'_>>
    ensures { Reads (λ x. Got (x.0, x.1) x.2.now) result ((tiers.operator_at tier).reader.read tokens.now) }
{
    let [first, rest @ ..] = tokens else {
        return Err(Failure::Unexpected(tokens));
    };
    match operator_of(tier, &first.kind) {
        Some(operator) => Ok((operator, first.span, rest)),
        None => Err(Failure::Unexpected(tokens)),
    }
}
