//! How deep a definition is.

ghost use Rattle.std.specs.Prelude.{◌≡◌, map};
ghost use Rattle.td_ast.specs.Statements.{block_of};
ghost use Rattle.td_limits.specs.Depths.{action_depth, assigned_depth, block_depth, case_depth, default_depth, extent_depth, field_depth, fields_depth, head_depth, item_depth, kind_depth, operand_depth, option_depth, param_depth, plain_depth, statement_depth, target_depth, tree_depth, trees_depth, uses_depth, value_depth};
ghost use Rattle.td_limits.specs.Excesses.{greatest};
ghost use Rattle.td_limits.specs.Measures.{constant_depth_of, type_depth_of};

use crate::measures::{Measure, NameSort};
use td_ast::actions::{ActionTree, Assigned, Block, Stmt, StmtKind};
use td_ast::definitions::{CaseTree, Def, ItemTree};
use td_ast::expressions::{Expr, ExprKind, SizeofOperand};
use td_ast::fields::{ExtentTree, FieldTree, TypeKind};
use td_ast::names::{ConstTree, PlainTree};
use td_ast::parameters::{HeadTree, ParamTree, TargetTree};
use td_names::table::Table;
use td_num::items::Items;

// The depth of the definition that a name in an expression names.
fn constant_depth(known: &Table<Measure>, name: &[u8]) -> u64
    ensures { result ≡ constant_depth_of known.now name.now }
{
    match known.get(name) {
        None => 0,
        Some(measure) => match measure.sort {
            NameSort::Constant => measure.depth,
            NameSort::TypeName => 0,
            NameSort::Member => 0,
        },
    }
}

// The depth of that which a name at a type's place names.
fn type_depth(known: &Table<Measure>, name: &[u8]) -> u64
    ensures { result ≡ type_depth_of known.now name.now }
{
    match known.get(name) {
        None => 0,
        Some(measure) => measure.depth,
    }
}

fn operand_depth(known: &Table<Measure>, operand: &SizeofOperand) -> u64
    ensures { result ≡ operand_depth known.now operand.now }
{
    match operand {
        SizeofOperand::Number(_) => 0,
        SizeofOperand::Name(name) => type_depth(known, name.as_slice()),
        SizeofOperand::This => 0,
    }
}

fn tree_depth(known: &Table<Measure>, e: &Expr) -> u64
    ensures { result ≡ tree_depth known.now e.now }
{
    match &e.kind {
        ExprKind::Number(_, _) => 0,
        ExprKind::Truth(_) => 0,
        ExprKind::Name(name) => constant_depth(known, name.text.as_slice()),
        ExprKind::FieldPos(_) => 0,
        ExprKind::Sizeof(_, operand, _) => operand_depth(known, operand),
        ExprKind::RangeOkay(a, b, c) => {
            tree_depth(known, a).max(tree_depth(known, b).max(tree_depth(known, c)))
        }
        ExprKind::Unary(_, _, a) => tree_depth(known, a),
        ExprKind::Binary(_, _, a, b) => tree_depth(known, a).max(tree_depth(known, b)),
        ExprKind::Choice(_, a, b, c) => {
            tree_depth(known, a).max(tree_depth(known, b).max(tree_depth(known, c)))
        }
    }
}

fn trees_depth(known: &Table<Measure>, es: &[Expr]) -> u64
    ensures { result ≡ trees_depth known.now es.now }
{
    let mut depth = 0u64;
    for e in es {
        depth = depth.max(tree_depth(known, e));
    }
    depth
}

fn option_depth(known: &Table<Measure>, e: &Option<Expr>) -> u64
    ensures { result ≡ option_depth known.now e.now }
{
    match e {
        None => 0,
        Some(e) => tree_depth(known, e),
    }
}

fn assigned_depth(known: &Table<Measure>, assigned: &Assigned) -> u64
    ensures { result ≡ assigned_depth known.now assigned.now }
{
    match assigned {
        Assigned::Value(e) => tree_depth(known, e),
        Assigned::FieldPtr(_) => 0,
    }
}

#[cycle(block)]
fn statement_depth(known: &Table<Measure>, statement: &Stmt) -> u64
    ensures { result ≡ statement_depth known.now statement.now }
{
    match &statement.kind {
        StmtKind::Store(_, rhs) => assigned_depth(known, rhs),
        StmtKind::StoreField(_, _, rhs) => assigned_depth(known, rhs),
        StmtKind::Var(_, _, _) => 0,
        StmtKind::If(e, one) => tree_depth(known, e).max(block_depth(known, one)),
        StmtKind::IfElse(e, one, other) => {
            tree_depth(known, e).max(block_depth(known, one).max(block_depth(known, other)))
        }
        StmtKind::Return(e) => tree_depth(known, e),
        StmtKind::Abort => 0,
    }
}

#[cycle(block)]
fn statements_depth(known: &Table<Measure>, statements: &[Stmt]) -> u64
    ensures { result ≡ greatest (map (statement_depth known.now) statements.now) }
{
    let mut depth = 0u64;
    for statement in statements {
        depth = depth.max(statement_depth(known, statement));
    }
    depth
}

#[cycle(block)]
fn block_depth(known: &Table<Measure>, block: &Block) -> u64
    ensures { result ≡ block_depth known.now (block_of block.now) }
{
    statements_depth(known, block.as_slice())
}

fn action_depth(known: &Table<Measure>, action: &Option<ActionTree>) -> u64
    ensures { result ≡ action_depth known.now action.now }
{
    match action {
        None => 0,
        Some(ActionTree::Done { statements, .. }) => block_depth(known, statements),
        Some(ActionTree::Copied { .. }) => 0,
    }
}

fn kind_depth(known: &Table<Measure>, kind: &TypeKind) -> u64
    ensures { result ≡ kind_depth known.now kind.now }
{
    match kind {
        TypeKind::Number(_) => 0,
        TypeKind::Unit => 0,
        TypeKind::AllBytes => 0,
        TypeKind::AllZeros => 0,
        TypeKind::Named(name, args) => {
            type_depth(known, name.as_slice()).max(trees_depth(known, args.as_slice()))
        }
    }
}

fn extent_depth(known: &Table<Measure>, extent: &Option<ExtentTree>) -> u64
    ensures { result ≡ extent_depth known.now extent.now }
{
    match extent {
        None => 0,
        Some(ExtentTree::Bytes(e)) => tree_depth(known, e),
        Some(ExtentTree::ByteSize(e)) => tree_depth(known, e),
        Some(ExtentTree::SingleElement(e)) => tree_depth(known, e),
        Some(ExtentTree::Zeroterm(e)) => tree_depth(known, e),
        Some(ExtentTree::Bits(_)) => 0,
        Some(ExtentTree::Given(e)) => tree_depth(known, e),
        Some(ExtentTree::OfCell(_, _)) => 0,
    }
}

fn field_depth(known: &Table<Measure>, field: &FieldTree) -> u64
    ensures { result ≡ field_depth known.now field.now }
{
    let size = kind_depth(known, &field.type_tree.kind).max(extent_depth(known, &field.extent));
    let tests = option_depth(known, &field.refinement).max(action_depth(known, &field.action));
    size.max(tests)
}

fn fields_depth(known: &Table<Measure>, fields: &[FieldTree]) -> u64
    ensures { result ≡ fields_depth known.now fields.now }
{
    let mut depth = 0u64;
    for field in fields {
        depth = depth.max(field_depth(known, field));
    }
    depth
}

fn value_depth(known: &Table<Measure>, value: &ConstTree) -> u64
    ensures { result ≡ value_depth known.now value.now }
{
    match value {
        ConstTree::Number(_) => 0,
        ConstTree::Named(name) => constant_depth(known, name.text.as_slice()),
    }
}

fn case_depth(known: &Table<Measure>, case: &CaseTree) -> u64
    ensures { result ≡ case_depth known.now case.now }
{
    value_depth(known, &case.constant).max(fields_depth(known, case.fields.as_slice()))
}

fn cases_depth(known: &Table<Measure>, cases: &[CaseTree]) -> u64
    ensures { result ≡ greatest (map (case_depth known.now) cases.now) }
{
    let mut depth = 0u64;
    for case in cases {
        depth = depth.max(case_depth(known, case));
    }
    depth
}

fn default_depth(known: &Table<Measure>, default: &Option<Items<FieldTree>>) -> u64
    ensures { result ≡ default_depth known.now default.now }
{
    match default {
        None => 0,
        Some(fields) => fields_depth(known, fields.as_slice()),
    }
}

fn plain_depth(known: &Table<Measure>, plain: &PlainTree) -> u64
    ensures { result ≡ plain_depth known.now plain.now }
{
    match plain {
        PlainTree::Number(_) => 0,
        PlainTree::Named(name) => type_depth(known, name.text.as_slice()),
    }
}

fn target_depth(known: &Table<Measure>, target: &TargetTree) -> u64
    ensures { result ≡ target_depth known.now target.now }
{
    match target {
        TargetTree::Number(_) => 0,
        TargetTree::Pointer(_) => 0,
        TargetTree::Named(name) => type_depth(known, name.text.as_slice()),
    }
}

fn param_depth(known: &Table<Measure>, param: &ParamTree) -> u64
    ensures { result ≡ param_depth known.now param.now }
{
    match param {
        ParamTree::Value(plain, _) => plain_depth(known, plain),
        ParamTree::Mutable(target, _) => target_depth(known, target),
        ParamTree::Bytes { room, .. } => value_depth(known, room),
    }
}

fn params_depth(known: &Table<Measure>, params: &[ParamTree]) -> u64
    ensures { result ≡ greatest (map (param_depth known.now) params.now) }
{
    let mut depth = 0u64;
    for param in params {
        depth = depth.max(param_depth(known, param));
    }
    depth
}

fn head_depth(known: &Table<Measure>, head: &HeadTree) -> u64
    ensures { result ≡ head_depth known.now head.now }
{
    params_depth(known, head.params.as_slice()).max(option_depth(known, &head.condition))
}

fn item_depth(known: &Table<Measure>, item: &ItemTree) -> u64
    ensures { result ≡ item_depth known.now item.now }
{
    match &item.value {
        None => 0,
        Some(value) => value_depth(known, value),
    }
}

fn items_depth(known: &Table<Measure>, items: &[ItemTree]) -> u64
    ensures { result ≡ greatest (map (item_depth known.now) items.now) }
{
    let mut depth = 0u64;
    for item in items {
        depth = depth.max(item_depth(known, item));
    }
    depth
}

/// The greatest depth of the definitions that a definition names.
pub(crate) fn uses_depth(known: &Table<Measure>, definition: &Def) -> u64
    ensures { result ≡ uses_depth known.now definition.now }
{
    match definition {
        Def::Define(_) => 0,
        Def::Enum(tree) => items_depth(known, tree.items.as_slice()),
        Def::Alias(tree) => plain_depth(known, &tree.target),
        Def::Struct(tree) => {
            head_depth(known, &tree.head).max(fields_depth(known, tree.fields.as_slice()))
        }
        Def::Casetype(tree) => {
            let head = head_depth(known, &tree.head).max(tree_depth(known, &tree.subject));
            let cases = cases_depth(known, tree.cases.as_slice());
            head.max(cases.max(default_depth(known, &tree.default)))
        }
        Def::Output(_) => 0,
    }
}
