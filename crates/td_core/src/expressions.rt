//! Expressions, with the types of their literals and names. All other types follow (3D manual, "Expressions").

use std::marker::Model;
use td_ast::token::Span;

/// The type of an expression: a truth value, or a number of so many bits.
#[derive(Clone, Copy, PartialEq, Eq)]
pub enum Scalar {
    Truth,
    Eight,
    Sixteen,
    ThirtyTwo,
    SixtyFour,
}

/// An operator that computes a number of two.
#[derive(Clone, Copy, PartialEq, Eq, Debug)]
pub enum Binary {
    Add,
    Subtract,
    Multiply,
    Divide,
    Remainder,
    BitAnd,
    BitOr,
    BitXor,
    ShiftLeft,
    ShiftRight,
}

/// One of the six comparisons: `==`, `!=`, `<`, `<=`, `>`, `>=`.
#[derive(Clone, Copy, PartialEq, Eq)]
pub enum Relation {
    Equal,
    NotEqual,
    Less,
    LessEqual,
    Greater,
    GreaterEqual,
}

/// An expression. A contract sees a `Term`, which has no boxes.
#[derive(Drop)]
#[cycle(expression)]
pub struct CoreExpr {
    pub node: Node,
}

/// An operator with its operands, or what has none.
#[derive(Drop)]
#[cycle(expression)]
pub enum Node {
    /// A literal and its type. `true` and `false` are 1 and 0.
    Number {
        value: u64,
        scalar: Scalar,
    },
    /// A value in scope by its level (its place there, from 0), its type, and the greatest value that it can have.
    Name {
        level: u32,
        scalar: Scalar,
        most: u64,
    },
    /// `~a`
    Complement(Box<CoreExpr>),
    /// `!a`
    Not(Box<CoreExpr>),
    /// `a + b` and the like, with the operator's place in the text.
    Compute(Binary, Span, Box<CoreExpr>, Box<CoreExpr>),
    /// `a < b` and the like.
    Compare(Relation, Box<CoreExpr>, Box<CoreExpr>),
    /// `a && b`
    Both(Box<CoreExpr>, Box<CoreExpr>),
    /// `a || b`
    Either(Box<CoreExpr>, Box<CoreExpr>),
    /// `c ? a : b`
    Choice(Box<CoreExpr>, Box<CoreExpr>, Box<CoreExpr>),
    /// `is_range_okay(size, offset, access)`
    RangeOkay(Box<CoreExpr>, Box<CoreExpr>, Box<CoreExpr>),
}

impl Model for CoreExpr {
    ghost use Rattle.td_core.specs.Term.{Term, measure};
    ghost use Rattle.td_core.specs.Stored.{term_code};

    ghost Value = { Term };

    ghost coded = { term_code };

    ghost use Rattle.td_core.specs.Shown.{shown};

    ghost view = { λ e. shown e.node };

    ghost size = { measure };

    ghost use Rattle.td_core.specs.Operands.{parts_are_smaller};

    ghost size_decreases = { λ e _. parts_are_smaller e };
}
