//! Actions and their statements. To contracts a statement is a `Statement`, and a block is the list of its statements.

ghost use Rattle.std.specs.Prelude.{◌≡◌, [], ◌∷◌, ◌++◌, OnOk, OnErr};

use crate::expressions::Expr;
use crate::names::Name;
use crate::token::Span;
use std::alloc::{AllocError, Global};
use std::marker::Model;

/// What is stored.
#[derive(Drop)]
pub enum Assigned {
    /// The value of an expression.
    Value(Expr),
    /// `field_ptr`, by its span.
    FieldPtr(Span),
}

/// A statement.
#[cycle(statement)]
#[derive(Drop)]
pub struct Stmt {
    /// From its first token to its last one.
    pub span: Span,
    pub kind: StmtKind,
}

/// What a statement does.
#[cycle(statement)]
#[derive(Drop)]
pub enum StmtKind {
    /// `*p = rhs;`
    Store(Name, Assigned),
    /// `p->f = rhs;`
    StoreField(Name, Name, Assigned),
    /// `var x = *p;`, with the span of `*`.
    Var(Name, Span, Name),
    /// `if (e) { .. }`
    If(Expr, Block),
    /// `if (e) { .. } else { .. }`
    IfElse(Expr, Block, Block),
    /// `return e;`
    Return(Expr),
    /// `abort;`
    Abort,
}

/// Statements in order.
#[cycle(statement)]
#[derive(Drop)]
pub struct Block {
    statements: Vec<Stmt>,
}

/// `{:act`, `{:check` or `{:on-success`
#[derive(Clone, Copy, PartialEq, Eq)]
pub enum ActionKind {
    Act,
    Check,
    OnSuccess,
}

/// An action.
#[derive(Drop)]
pub enum ActionTree {
    /// `ACTWORD { stmt } "}"`, with the span of its first token.
    Done {
        kind: ActionKind,
        span: Span,
        statements: Block,
    },
    /// `"{:copy" NAME "}"`, with the span of `{:copy`: the field's bytes go to the copy buffer of that name.
    Copied {
        span: Span,
        name: Name,
    },
}

impl Model for Stmt {
    ghost use Rattle.std.specs.Coded.{codes};
    ghost use Rattle.td_ast.specs.contracts.expressions.Expr as expression;
    ghost use Rattle.td_ast.specs.Statements.{Statement, statement_size};
    ghost use Rattle.td_ast.specs.StatementCode.{statement_code_by};

    ghost Value = { Statement };

    ghost coded = { statement_code_by (Prim.hlevel (codes, expression.the_row.coded)) };

    ghost use Rattle.td_ast.specs.StmtView.{statement_at};

    ghost view = { λ a. statement_at a.span a.kind };

    ghost size = { statement_size };

    ghost use Rattle.td_ast.specs.StmtFalls.{blocks_smaller};

    ghost size_decreases = { λ a h. blocks_smaller a.span a.kind };
}

impl Model for Block {
    ghost use Rattle.std.specs.Prelude.{List};
    ghost use Rattle.std.specs.Coded.{codes, coded_list};
    ghost use Rattle.td_ast.specs.contracts.expressions.Expr as expression;
    ghost use Rattle.td_ast.specs.Statements.{Statement, list_size};
    ghost use Rattle.td_ast.specs.StatementCode.{statement_code_by, most_le_list_size};

    ghost Value = { List Statement };

    ghost coded = { coded_list (statement_code_by (Prim.hlevel (codes, expression.the_row.coded))) };

    ghost view = { λ a. a.statements.items };

    ghost size = { list_size };

    ghost use Rattle.std.proofs.Common.{arith};

    ghost size_decreases = { λ a h. omega (arith, most_le_list_size a.statements.items) };
}

impl Block {
    /// No statements. Takes no memory.
    pub fn new(alloc: Global) -> Block
        ensures { result ≡ [] }
    {
        Block {
            statements: Vec::new(alloc),
        }
    }

    /// One more statement at the end. `AllocError`: out of memory, and the block is as before.
    pub fn push(&mut self, statement: Stmt) -> Result<(), AllocError>
        ensures ok { OnOk result (self.new ≡ self.old ++ statement ∷ []) }
        ensures err { OnErr result (self.new ≡ self.old) }
    {
        self.statements.push(statement)?;
        Ok(())
    }

    /// The statements.
    pub fn as_slice(&self) -> &[Stmt]
        ensures { result.now ≡ self.now }
    {
        self.statements.as_slice()
    }
}
