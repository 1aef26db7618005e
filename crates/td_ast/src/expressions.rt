//! Expressions. To contracts an expression is a `Tree`.

ghost use Rattle.std.specs.Prelude.{◌≡◌, ◌<◌, ◌^◌, IfOk};
ghost use Rattle.td_ast.specs.Trees.{Binary, tree_size, span_of, spanned, over};

use crate::names::Name;
use crate::token::{Base, Span};
use std::alloc::{AllocError, Global};
use std::marker::Model;
use td_num::number::NumberType;
use td_num::text::Text;

/// An operator of one operand.
#[derive(Clone, Copy, PartialEq, Eq)]
pub enum UnaryOperator {
    /// `!`
    Not,
    /// `~`
    Complement,
}

/// An operator of two operands.
#[derive(Clone, Copy, PartialEq, Eq)]
pub enum BinaryOperator {
    /// `*`
    Multiply,
    /// `/`
    Divide,
    /// `%`
    Remainder,
    /// `+`
    Add,
    /// `-`
    Subtract,
    /// `<<`
    ShiftLeft,
    /// `>>`
    ShiftRight,
    /// `<`
    Less,
    /// `<=`
    LessEqual,
    /// `>`
    Greater,
    /// `>=`
    GreaterEqual,
    /// `==`
    Equal,
    /// `!=`
    NotEqual,
    /// `&`
    BitAnd,
    /// `^`
    BitXor,
    /// `|`
    BitOr,
    /// `&&`
    And,
    /// `||`
    Or,
}

/// What `sizeof` is asked of.
#[derive(Drop)]
pub enum SizeofOperand {
    /// A number type.
    Number(NumberType),
    /// A name, by its bytes.
    Name(Text),
    /// `this`
    This,
}

/// An expression, without its parentheses.
#[cycle(expression)]
#[derive(Drop)]
pub struct Expr {
    /// From its first token to its last one, parentheses included.
    pub span: Span,
    pub kind: ExprKind,
}

/// What an expression is made of. A span among the parts of a variant is that of its token alone, without the
/// parentheses that may stand round the whole.
#[cycle(expression)]
#[derive(Drop)]
pub enum ExprKind {
    /// A number, and how its digits are written.
    Number(u64, Base),
    /// `true` or `false`
    Truth(bool),
    /// A name, with its own span.
    Name(Name),
    /// `field_pos`, with the span of the word.
    FieldPos(Span),
    /// `"sizeof" "(" operand ")"`, with the spans of the word and of the operand.
    Sizeof(Span, SizeofOperand, Span),
    /// `"is_range_okay" "(" size "," offset "," access ")"`
    RangeOkay(Box<Expr>, Box<Expr>, Box<Expr>),
    /// `OPERATOR operand`, with the span of the operator.
    Unary(UnaryOperator, Span, Box<Expr>),
    /// `left OPERATOR right`, with the span of the operator.
    Binary(BinaryOperator, Span, Box<Expr>, Box<Expr>),
    /// `condition ? first : second`, with the span of `?`.
    Choice(Span, Box<Expr>, Box<Expr>, Box<Expr>),
}

impl Model for Expr {
    ghost use Rattle.td_ast.specs.Trees.{Tree, tree_size};
    ghost use Rattle.td_ast.specs.TreeCode.{tree_code_by};
    ghost use Rattle.std.specs.Coded.{codes};

    ghost Value = { Tree };

    ghost coded = { tree_code_by (Prim.hlevel codes) };

    ghost use Rattle.td_ast.specs.ExprView.{tree_at};

    ghost view = { λ a. tree_at a.span a.kind };

    ghost size = { tree_size };

    ghost use Rattle.td_ast.specs.ExprFalls.{children_smaller};

    ghost size_decreases = { λ a h. children_smaller a.span a.kind };
}

impl Expr {
    /// How many nodes it has: one for each name, number, operator and call.
    pub fn count(&self) -> u64
        requires { tree_size self.now < 2 ^ 64 }
        ensures { result ≡ tree_size self.now }
    {
        match &self.kind {
            ExprKind::Number(_, _) => 1,
            ExprKind::Truth(_) => 1,
            ExprKind::Name(_) => 1,
            ExprKind::FieldPos(_) => 1,
            ExprKind::Sizeof(_, _, _) => 1,
            ExprKind::RangeOkay(a, b, c) => a.count() + b.count() + c.count() + 1,
            ExprKind::Unary(_, _, a) => a.count() + 1,
            ExprKind::Binary(_, _, a, b) => a.count() + b.count() + 1,
            ExprKind::Choice(_, a, b, c) => a.count() + b.count() + c.count() + 1,
        }
    }

    /// The same expression with another span. Takes no memory.
    pub fn spanned(self, span: Span) -> Expr
        ensures { result ≡ spanned span self }
    {
        Expr {
            span,
            kind: self.kind,
        }
    }

    /// `left OPERATOR right`, where the operator has the span `at`. `AllocError`: out of memory.
    pub fn binary(
        alloc: Global,
        operator: BinaryOperator,
        at: Span,
        left: Expr,
        right: Expr,
    ) -> Result<Expr, AllocError>
        ensures { IfOk result (λ e. e ≡ Binary (over (span_of left) (span_of right)) operator at left right) }
    {
        let span = Span {
            from: left.span.from,
            to: right.span.to,
        };
        let left = Box::new(alloc, left)?;
        let right = Box::new(alloc, right)?;
        Ok(Expr {
            span,
            kind: ExprKind::Binary(operator, at, left, right),
        })
    }
}
