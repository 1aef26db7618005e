//! Operators: how each is spelled, and how tightly it binds.
#![tactic(auto, using(crate::proofs::Texts::texts))]

ghost use Rattle.std.specs.Prelude.{◌≡◌};
ghost use Rattle.td_print_layout.specs.Pieces.{spelling};
ghost use Rattle.td_print_layout.specs.Operators as operators;

use td_ast::expressions::{BinaryOperator, UnaryOperator};

/// The sign of an operator of one operand.
pub(crate) fn unary_sign(operator: UnaryOperator) -> &'static [u8]
    ensures { result.now ≡ spelling (operators.unary_kind operator) }
{
    match operator {
        UnaryOperator::Not => b"!",
        UnaryOperator::Complement => b"~",
    }
}

/// The sign of an operator of two operands.
pub(crate) fn binary_sign(operator: BinaryOperator) -> &'static [u8]
    ensures { result.now ≡ spelling (operators.binary_kind operator) }
{
    match operator {
        BinaryOperator::Multiply => b"*",
        BinaryOperator::Divide => b"/",
        BinaryOperator::Remainder => b"%",
        BinaryOperator::Add => b"+",
        BinaryOperator::Subtract => b"-",
        BinaryOperator::ShiftLeft => b"<<",
        BinaryOperator::ShiftRight => b">>",
        BinaryOperator::Less => b"<",
        BinaryOperator::LessEqual => b"<=",
        BinaryOperator::Greater => b">",
        BinaryOperator::GreaterEqual => b">=",
        BinaryOperator::Equal => b"==",
        BinaryOperator::NotEqual => b"!=",
        BinaryOperator::BitAnd => b"&",
        BinaryOperator::BitXor => b"^",
        BinaryOperator::BitOr => b"|",
        BinaryOperator::And => b"&&",
        BinaryOperator::Or => b"||",
    }
}

/// The level of an operator: 2 for those that bind most tightly, 11 for `||`.
pub(crate) fn level_of(operator: BinaryOperator) -> u8
    ensures { result ≡ operators.level_of operator }
{
    match operator {
        BinaryOperator::Multiply => 2,
        BinaryOperator::Divide => 2,
        BinaryOperator::Remainder => 2,
        BinaryOperator::Add => 3,
        BinaryOperator::Subtract => 3,
        BinaryOperator::ShiftLeft => 4,
        BinaryOperator::ShiftRight => 4,
        BinaryOperator::Less => 5,
        BinaryOperator::LessEqual => 5,
        BinaryOperator::Greater => 5,
        BinaryOperator::GreaterEqual => 5,
        BinaryOperator::Equal => 6,
        BinaryOperator::NotEqual => 6,
        BinaryOperator::BitAnd => 7,
        BinaryOperator::BitXor => 8,
        BinaryOperator::BitOr => 9,
        BinaryOperator::And => 10,
        BinaryOperator::Or => 11,
    }
}

/// Whether it compares: such an operator has no other of its level beside it.
fn compares(operator: BinaryOperator) -> bool
    ensures { result ≡ operators.compares operator }
{
    match operator {
        BinaryOperator::Less => true,
        BinaryOperator::LessEqual => true,
        BinaryOperator::Greater => true,
        BinaryOperator::GreaterEqual => true,
        BinaryOperator::Equal => true,
        BinaryOperator::NotEqual => true,
        _ => false,
    }
}

/// The loosest level that stands on its left without parentheses.
pub(crate) fn left_of(operator: BinaryOperator) -> u8
    ensures { result ≡ operators.left_of operator }
{
    if compares(operator) {
        level_of(operator).saturating_sub(1)
    } else {
        level_of(operator)
    }
}

/// The loosest level that stands on its right without parentheses.
pub(crate) fn right_of(operator: BinaryOperator) -> u8
    ensures { result ≡ operators.right_of operator }
{
    level_of(operator).saturating_sub(1)
}
