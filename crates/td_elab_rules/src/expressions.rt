//! Sorts of expressions.

use td_core::expressions::{Binary, Relation, Scalar};

/// What is known of an expression.
#[derive(Clone, Copy, PartialEq, Eq)]
pub enum Sort {
    /// A part is broken, and nothing is known.
    Broken,
    /// A number with a broken part, which has no type.
    Untyped,
    /// A truth value.
    Truth,
    /// A literal, a constant, a member of an enum or a size, by its value.
    Literal(u64),
    /// A number of this type.
    Typed(Scalar),
}

/// What an operator of two operands does.
#[derive(Clone, Copy, PartialEq, Eq)]
pub enum Operation {
    /// It gives a number of two numbers.
    Computes(Binary),
    /// It gives a truth value of two numbers.
    Compares(Relation),
    /// `&&`
    Both,
    /// `||`
    Either,
}
