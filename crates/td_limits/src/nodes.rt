//! How many nodes a tree has. A count that 64 bits don't hold stands still at their end.

ghost use Rattle.std.specs.Prelude.{◌≡◌, ◌+◌, length, map, sum};
ghost use Rattle.td_ast.specs.Statements.{block_of};
ghost use Rattle.td_ast.specs.Trees.{tree_size};
ghost use Rattle.td_limits.specs.Excesses.{capped};
ghost use Rattle.td_limits.specs.Nodes.{action_nodes, assigned_nodes, block_nodes, cases_nodes, default_nodes, definition_nodes, extent_nodes, fields_nodes, head_nodes, inner_nodes, kind_nodes, option_nodes, statement_nodes};

use td_ast::actions::{ActionTree, Assigned, Block, Stmt, StmtKind};
use td_ast::definitions::{CaseTree, Def};
use td_ast::expressions::{Expr, ExprKind};
use td_ast::fields::{ExtentTree, FieldTree, TypeKind};
use td_ast::parameters::HeadTree;
use td_num::items::Items;

/// The nodes of an expression.
pub(crate) fn expr_nodes(e: &Expr) -> u64
    ensures { result ≡ capped (tree_size e.now) }
{
    match &e.kind {
        ExprKind::Number(_, _) => 1,
        ExprKind::Truth(_) => 1,
        ExprKind::Name(_) => 1,
        ExprKind::FieldPos(_) => 1,
        ExprKind::Sizeof(_, _, _) => 1,
        ExprKind::RangeOkay(a, b, c) => expr_nodes(a)
            .saturating_add(expr_nodes(b))
            .saturating_add(expr_nodes(c))
            .saturating_add(1),
        ExprKind::Unary(_, _, a) => expr_nodes(a).saturating_add(1),
        ExprKind::Binary(_, _, a, b) => expr_nodes(a)
            .saturating_add(expr_nodes(b))
            .saturating_add(1),
        ExprKind::Choice(_, a, b, c) => expr_nodes(a)
            .saturating_add(expr_nodes(b))
            .saturating_add(expr_nodes(c))
            .saturating_add(1),
    }
}

fn option_nodes(e: &Option<Expr>) -> u64
    ensures { result ≡ capped (option_nodes e.now) }
{
    match e {
        None => 0,
        Some(e) => expr_nodes(e),
    }
}

fn exprs_nodes(es: &[Expr]) -> u64
    ensures { result ≡ capped (sum (map tree_size es.now)) }
{
    let mut total = 0u64;
    for e in es {
        total = total.saturating_add(expr_nodes(e));
    }
    total
}

fn assigned_nodes(assigned: &Assigned) -> u64
    ensures { result ≡ capped (assigned_nodes assigned.now) }
{
    match assigned {
        Assigned::Value(e) => expr_nodes(e),
        Assigned::FieldPtr(_) => 0,
    }
}

#[cycle(block)]
fn statement_nodes(statement: &Stmt) -> u64
    ensures { result ≡ capped (statement_nodes statement.now) }
{
    match &statement.kind {
        StmtKind::Store(_, rhs) => assigned_nodes(rhs).saturating_add(1),
        StmtKind::StoreField(_, _, rhs) => assigned_nodes(rhs).saturating_add(1),
        StmtKind::Var(_, _, _) => 1,
        StmtKind::If(e, one) => expr_nodes(e)
            .saturating_add(block_nodes(one))
            .saturating_add(1),
        StmtKind::IfElse(e, one, other) => expr_nodes(e)
            .saturating_add(block_nodes(one))
            .saturating_add(block_nodes(other))
            .saturating_add(1),
        StmtKind::Return(e) => expr_nodes(e).saturating_add(1),
        StmtKind::Abort => 1,
    }
}

#[cycle(block)]
fn statements_nodes(statements: &[Stmt]) -> u64
    ensures { result ≡ capped (block_nodes (block_of statements.now)) }
{
    let mut total = 0u64;
    for statement in statements {
        total = total.saturating_add(statement_nodes(statement));
    }
    total
}

#[cycle(block)]
fn block_nodes(block: &Block) -> u64
    ensures { result ≡ capped (block_nodes (block_of block.now)) }
{
    statements_nodes(block.as_slice())
}

/// The nodes of an action: its statements, and the nodes of their expressions. A copy has none.
pub(crate) fn action_nodes(action: &Option<ActionTree>) -> u64
    ensures { result ≡ capped (action_nodes action.now) }
{
    match action {
        None => 0,
        Some(ActionTree::Done { statements, .. }) => block_nodes(statements),
        Some(ActionTree::Copied { .. }) => 0,
    }
}

fn kind_nodes(kind: &TypeKind) -> u64
    ensures { result ≡ capped (kind_nodes kind.now) }
{
    match kind {
        TypeKind::Number(_) => 0,
        TypeKind::Unit => 0,
        TypeKind::AllBytes => 0,
        TypeKind::AllZeros => 0,
        TypeKind::Named(_, args) => exprs_nodes(args.as_slice()),
    }
}

fn extent_nodes(extent: &Option<ExtentTree>) -> u64
    ensures { result ≡ capped (extent_nodes extent.now) }
{
    match extent {
        None => 0,
        Some(ExtentTree::Bytes(e)) => expr_nodes(e),
        Some(ExtentTree::ByteSize(e)) => expr_nodes(e),
        Some(ExtentTree::SingleElement(e)) => expr_nodes(e),
        Some(ExtentTree::Zeroterm(e)) => expr_nodes(e),
        Some(ExtentTree::Bits(_)) => 0,
        Some(ExtentTree::Given(e)) => expr_nodes(e),
        Some(ExtentTree::OfCell(_, _)) => 0,
    }
}

/// The nodes of a field's expressions and statements.
pub(crate) fn inner_nodes(field: &FieldTree) -> u64
    ensures { result ≡ capped (inner_nodes field.now) }
{
    kind_nodes(&field.type_tree.kind)
        .saturating_add(extent_nodes(&field.extent))
        .saturating_add(option_nodes(&field.refinement))
        .saturating_add(action_nodes(&field.action))
}

fn fields_nodes(fields: &[FieldTree]) -> u64
    ensures { result ≡ capped (fields_nodes fields.now) }
{
    let mut total = 0u64;
    for field in fields {
        total = total.saturating_add(inner_nodes(field).saturating_add(1));
    }
    total
}

fn cases_nodes(cases: &[CaseTree]) -> u64
    ensures { result ≡ capped (cases_nodes cases.now) }
{
    let mut total = 0u64;
    for case in cases {
        let fields = fields_nodes(case.fields.as_slice());
        total = total.saturating_add(fields.saturating_add(1));
    }
    total
}

fn default_nodes(default: &Option<Items<FieldTree>>) -> u64
    ensures { result ≡ capped (default_nodes default.now) }
{
    match default {
        None => 0,
        Some(fields) => fields_nodes(fields.as_slice()),
    }
}

/// The nodes of a head: its parameters, and those of the expression after `where`.
pub(crate) fn head_nodes(head: &HeadTree) -> u64
    ensures { result ≡ capped (head_nodes head.now) }
{
    option_nodes(&head.condition).saturating_add(head.params.len() as u64)
}

/// The nodes of a definition; the greatest number, where they are more. Takes no memory.
pub fn definition_nodes(definition: &Def) -> u64
    ensures { result ≡ capped (definition_nodes definition.now) }
{
    match definition {
        Def::Define(_) => 1,
        Def::Enum(tree) => (tree.items.len() as u64).saturating_add(1),
        Def::Alias(_) => 1,
        Def::Struct(tree) => head_nodes(&tree.head)
            .saturating_add(fields_nodes(tree.fields.as_slice()))
            .saturating_add(1),
        Def::Casetype(tree) => head_nodes(&tree.head)
            .saturating_add(expr_nodes(&tree.subject))
            .saturating_add(cases_nodes(tree.cases.as_slice()))
            .saturating_add(default_nodes(&tree.default))
            .saturating_add(1),
        Def::Output(tree) => (tree.slots.len() as u64).saturating_add(1),
    }
}
