//! Actions as they stand in the whole text.

ghost use Rattle.std.specs.Prelude.{◌≡◌, IfOk, OnOk};
ghost use Rattle.td_ast.specs.Statements as statements;
ghost use Rattle.td_front_flat.specs.Expressions as specs;

use crate::expressions::flat_tree;
use crate::names::{copied_name, given_name, is_qualified, used_name};
use crate::own::Own;
use std::alloc::{AllocError, Global};
use td_ast::actions::{ActionTree, Assigned, Block, Stmt, StmtKind};
use td_ast::expressions::Expr;
use td_ast::names::Name;
use td_ast::parameters::{ParamTree, TargetTree};
use td_ast::token::Span;
use td_names::names::Names;

fn is_own_record(target: &TargetTree) -> bool
    ensures { result ≡ specs.is_own_record target.now }
{
    match target {
        TargetTree::Number(_) => false,
        TargetTree::Pointer(_) => false,
        TargetTree::Named(name) => !is_qualified(name.text.as_slice()),
    }
}

fn is_own_row_at(param: &ParamTree, name: &[u8]) -> bool
    ensures { result ≡ specs.is_own_row_at param.now name.now }
{
    match param {
        ParamTree::Value(_, _) => false,
        ParamTree::Mutable(target, own) => name == own.text.as_slice() && is_own_record(target),
        ParamTree::Bytes { .. } => false,
    }
}

/// Whether a name is that of a parameter for a record of the own part.
fn is_own_row(params: &[ParamTree], name: &[u8]) -> bool
    ensures { result ≡ specs.is_own_row params.now name.now }
{
    for param in params {
        if is_own_row_at(param, name) {
            return true;
        }
    }
    false
}

// The name of a slot, where p is the name before `->`.
fn slot_name(
    alloc: Global,
    own: &Own,
    params: &[ParamTree],
    p: &Name,
    f: &Name,
) -> Result<Name, AllocError>
    ensures { IfOk result (λ n. n ≡ specs.slot_name own.now params.now p.now f.now) }
{
    if is_own_row(params, p.text.as_slice()) {
        given_name(alloc, own, f)
    } else {
        copied_name(alloc, f)
    }
}

fn flat_assigned(
    alloc: Global,
    own: &Own,
    scope: &Names,
    assigned: &Assigned,
) -> Result<Assigned, AllocError>
    ensures { IfOk result (λ a. a ≡ specs.flat_assigned own.now scope.now assigned.now) }
{
    match assigned {
        Assigned::Value(e) => {
            let e = flat_tree(alloc, own, scope, e)?;
            Ok(Assigned::Value(e))
        }
        Assigned::FieldPtr(at) => Ok(Assigned::FieldPtr(*at)),
    }
}

/// `*p = rhs;`
fn flat_store(
    alloc: Global,
    own: &Own,
    scope: &Names,
    span: Span,
    p: &Name,
    rhs: &Assigned,
) -> Result<Stmt, AllocError>
    ensures { IfOk result (λ s. s ≡ statements.Store span (specs.used_name own.now scope.now p.now) (specs.flat_assigned own.now scope.now rhs.now)) }
{
    let p = used_name(alloc, own, scope, p)?;
    let rhs = flat_assigned(alloc, own, scope, rhs)?;
    Ok(Stmt {
        span,
        kind: StmtKind::Store(p, rhs),
    })
}

/// `p->f = rhs;`, where the slot has its name in the whole text.
fn flat_store_field(
    alloc: Global,
    own: &Own,
    scope: &Names,
    span: Span,
    p: &Name,
    f: Name,
    rhs: &Assigned,
) -> Result<Stmt, AllocError>
    ensures { IfOk result (λ s. s ≡ statements.StoreField span (specs.used_name own.now scope.now p.now) f (specs.flat_assigned own.now scope.now rhs.now)) }
{
    let p = used_name(alloc, own, scope, p)?;
    let rhs = flat_assigned(alloc, own, scope, rhs)?;
    Ok(Stmt {
        span,
        kind: StmtKind::StoreField(p, f, rhs),
    })
}

/// `var x = *p;`
fn flat_var(
    alloc: Global,
    own: &Own,
    scope: &Names,
    span: Span,
    x: &Name,
    star: Span,
    p: &Name,
) -> Result<Stmt, AllocError>
    ensures { IfOk result (λ s. s ≡ statements.Var span (specs.given_name own.now x.now) star (specs.used_name own.now scope.now p.now)) }
{
    let x = given_name(alloc, own, x)?;
    let p = used_name(alloc, own, scope, p)?;
    Ok(Stmt {
        span,
        kind: StmtKind::Var(x, star, p),
    })
}

/// The locals in scope after a statement.
fn see_var(alloc: Global, scope: &mut Names, statement: &Stmt) -> Result<(), AllocError>
    ensures { OnOk result (scope.new ≡ specs.scope_after scope.old statement.now) }
{
    match &statement.kind {
        StmtKind::Var(name, _, _) => scope.see(alloc, name.text.as_slice()),
        _ => Ok(()),
    }
}

// Where a value is let go, each way through its variants is a way through the function. So what has many is let go by a call.

/// `if (e) { .. }`, of this block.
fn flat_if(
    alloc: Global,
    own: &Own,
    scope: &Names,
    span: Span,
    e: &Expr,
    one: Block,
) -> Result<Stmt, AllocError>
    ensures { IfOk result (λ s. s ≡ statements.If span (specs.flat_tree own.now scope.now e.now) (statements.block_of one)) }
{
    match flat_tree(alloc, own, scope, e) {
        Ok(e) => Ok(Stmt {
            span,
            kind: StmtKind::If(e, one),
        }),
        Err(error) => {
            drop(one);
            Err(error)
        }
    }
}

/// `if (e) { .. } else { .. }`, of these blocks.
fn flat_if_else(
    alloc: Global,
    own: &Own,
    scope: &Names,
    span: Span,
    e: &Expr,
    one: Block,
    other: Block,
) -> Result<Stmt, AllocError>
    ensures { IfOk result (λ s. s ≡ statements.IfElse span (specs.flat_tree own.now scope.now e.now) (statements.block_of one) (statements.block_of other)) }
{
    match flat_tree(alloc, own, scope, e) {
        Ok(e) => Ok(Stmt {
            span,
            kind: StmtKind::IfElse(e, one, other),
        }),
        Err(error) => {
            drop(one);
            drop(other);
            Err(error)
        }
    }
}

/// `return e;`
fn flat_return(
    alloc: Global,
    own: &Own,
    scope: &Names,
    span: Span,
    e: &Expr,
) -> Result<Stmt, AllocError>
    ensures { IfOk result (λ s. s ≡ statements.Return span (specs.flat_tree own.now scope.now e.now)) }
{
    let e = flat_tree(alloc, own, scope, e)?;
    Ok(Stmt {
        span,
        kind: StmtKind::Return(e),
    })
}

/// A statement.
#[cycle(statement)]
#[tactic(auto, using(crate::proofs::Scopes::block_is))]
fn flat_statement(
    alloc: Global,
    own: &Own,
    params: &[ParamTree],
    scope: &mut Names,
    statement: &Stmt,
) -> Result<Stmt, AllocError>
    ensures flat { IfOk result (λ s. s ≡ specs.flat_statement own.now params.now scope.old statement.now) }
    ensures scope { OnOk result (scope.new ≡ scope.old) }
{
    let span = statement.span;
    match &statement.kind {
        StmtKind::Store(p, rhs) => flat_store(alloc, own, scope, span, p, rhs),
        StmtKind::StoreField(p, f, rhs) => {
            let f = slot_name(alloc, own, params, p, f)?;
            flat_store_field(alloc, own, scope, span, p, f, rhs)
        }
        StmtKind::Var(x, star, p) => flat_var(alloc, own, scope, span, x, *star, p),
        StmtKind::If(e, one) => {
            let one = flat_block(alloc, own, params, scope, one)?;
            flat_if(alloc, own, scope, span, e, one)
        }
        StmtKind::IfElse(e, one, other) => {
            let one = flat_block(alloc, own, params, scope, one)?;
            match flat_block(alloc, own, params, scope, other) {
                Ok(other) => flat_if_else(alloc, own, scope, span, e, one, other),
                Err(error) => {
                    drop(one);
                    Err(error)
                }
            }
        }
        StmtKind::Return(e) => flat_return(alloc, own, scope, span, e),
        StmtKind::Abort => Ok(Stmt {
            span,
            kind: StmtKind::Abort,
        }),
    }
}

/// The statements of a block as they stand in the whole text, where these locals are in scope. `AllocError`: out of memory.
#[cycle(statement)]
#[tactic(auto, using(crate::proofs::Scopes::block_left))]
fn flat_block(
    alloc: Global,
    own: &Own,
    params: &[ParamTree],
    scope: &mut Names,
    block: &Block,
) -> Result<Block, AllocError>
    ensures flat { IfOk result (λ b. b ≡ specs.flat_statements own.now params.now scope.old block.now) }
    ensures scope { OnOk result (scope.new ≡ scope.old) }
{
    let outside = scope.len();
    let flat = flat_statements(alloc, own, params, scope, block.as_slice())?;
    scope.truncate(outside);
    Ok(flat)
}

// Its statements, and then the locals in scope after the last.
#[cycle(statement)]
fn flat_statements(
    alloc: Global,
    own: &Own,
    params: &[ParamTree],
    scope: &mut Names,
    statements: &[Stmt],
) -> Result<Block, AllocError>
    ensures flat { IfOk result (λ b. b ≡ specs.flat_statements own.now params.now scope.old statements.now) }
    ensures scope { OnOk result (scope.new ≡ specs.scope_behind scope.old statements.now) }
{
    let mut flat = Block::new(alloc);
    for statement in statements {
        flat.push(flat_statement(alloc, own, params, scope, statement)?)?;
        see_var(alloc, scope, statement)?;
    }
    Ok(flat)
}

/// An action as it stands in the whole text. `AllocError`: out of memory.
pub(crate) fn flat_action(
    alloc: Global,
    own: &Own,
    params: &[ParamTree],
    scope: &mut Names,
    action: &Option<ActionTree>,
) -> Result<Option<ActionTree>, AllocError>
    ensures flat { IfOk result (λ a. a ≡ specs.flat_action own.now params.now scope.old action.now) }
    ensures scope { OnOk result (scope.new ≡ scope.old) }
{
    match action {
        None => Ok(None),
        Some(
            ActionTree::Done {
                kind,
                span,
                statements,
            },
        ) => {
            let statements = flat_block(alloc, own, params, scope, statements)?;
            Ok(Some(ActionTree::Done {
                kind: *kind,
                span: *span,
                statements,
            }))
        }
        Some(ActionTree::Copied { span, name }) => {
            let name = used_name(alloc, own, scope, name)?;
            Ok(Some(ActionTree::Copied { span: *span, name }))
        }
    }
}
