//! The parts that a part uses, each at the place of the name that names it, in the order of the text.

ghost use Rattle.std.specs.Prelude.{◌≡◌, ◌++◌, flat_map, OnOk, IfOk};
ghost use Rattle.td_ast.specs.Statements.{block_of};
ghost use Rattle.td_front_flat.specs.Uses as specs;

use crate::names::part_named;
use std::alloc::{AllocError, Global};
use td_ast::actions::{ActionTree, Assigned, Block, Stmt, StmtKind};
use td_ast::definitions::{CaseTree, Def, ItemTree};
use td_ast::expressions::{Expr, ExprKind, SizeofOperand};
use td_ast::fields::{ExtentTree, FieldTree, TypeKind};
use td_ast::names::{ConstTree, Name, PlainTree};
use td_ast::parameters::{HeadTree, ParamTree, TargetTree};
use td_ast::parts::PartTree;
use td_ast::token::Span;
use td_num::items::Items;
use td_num::text::Text;

fn add_text(
    alloc: Global,
    uses: &mut Items<Name>,
    name: &[u8],
    span: Span,
) -> Result<(), AllocError>
    ensures { OnOk result (uses.new ≡ uses.old ++ specs.text_uses name.now span) }
{
    match part_named(name) {
        None => Ok(()),
        Some(part) => {
            let text = Text::copy_of(alloc, part)?;
            uses.push(Name { text, span })
        }
    }
}

fn add_name(alloc: Global, uses: &mut Items<Name>, name: &Name) -> Result<(), AllocError>
    ensures { OnOk result (uses.new ≡ uses.old ++ specs.name_uses name.now) }
{
    add_text(alloc, uses, name.text.as_slice(), name.span)
}

fn add_operand(
    alloc: Global,
    uses: &mut Items<Name>,
    operand: &SizeofOperand,
    span: Span,
) -> Result<(), AllocError>
    ensures { OnOk result (uses.new ≡ uses.old ++ specs.operand_uses operand.now span) }
{
    match operand {
        SizeofOperand::Number(_) => Ok(()),
        SizeofOperand::Name(name) => add_text(alloc, uses, name.as_slice(), span),
        SizeofOperand::This => Ok(()),
    }
}

#[cycle(tree)]
fn add_two(alloc: Global, uses: &mut Items<Name>, a: &Expr, b: &Expr) -> Result<(), AllocError>
    ensures { OnOk result (uses.new ≡ uses.old ++ (specs.tree_uses a.now ++ specs.tree_uses b.now)) }
{
    add_tree(alloc, uses, a)?;
    add_tree(alloc, uses, b)
}

#[cycle(tree)]
fn add_three(
    alloc: Global,
    uses: &mut Items<Name>,
    a: &Expr,
    b: &Expr,
    c: &Expr,
) -> Result<(), AllocError>
    ensures { OnOk result (uses.new ≡ uses.old ++ (specs.tree_uses a.now ++ (specs.tree_uses b.now ++ specs.tree_uses c.now))) }
{
    add_two(alloc, uses, a, b)?;
    add_tree(alloc, uses, c)
}

#[cycle(tree)]
fn add_tree(alloc: Global, uses: &mut Items<Name>, e: &Expr) -> Result<(), AllocError>
    ensures { OnOk result (uses.new ≡ uses.old ++ specs.tree_uses e.now) }
{
    match &e.kind {
        ExprKind::Number(_, _) => Ok(()),
        ExprKind::Truth(_) => Ok(()),
        ExprKind::Name(name) => add_name(alloc, uses, name),
        ExprKind::FieldPos(_) => Ok(()),
        ExprKind::Sizeof(_, operand, place) => add_operand(alloc, uses, operand, *place),
        ExprKind::RangeOkay(a, b, c) => add_three(alloc, uses, a, b, c),
        ExprKind::Unary(_, _, a) => add_tree(alloc, uses, a),
        ExprKind::Binary(_, _, a, b) => add_two(alloc, uses, a, b),
        ExprKind::Choice(_, a, b, c) => add_three(alloc, uses, a, b, c),
    }
}

fn add_option(alloc: Global, uses: &mut Items<Name>, e: &Option<Expr>) -> Result<(), AllocError>
    ensures { OnOk result (uses.new ≡ uses.old ++ specs.option_uses e.now) }
{
    match e {
        None => Ok(()),
        Some(e) => add_tree(alloc, uses, e),
    }
}

fn add_trees(alloc: Global, uses: &mut Items<Name>, es: &[Expr]) -> Result<(), AllocError>
    ensures { OnOk result (uses.new ≡ uses.old ++ flat_map specs.tree_uses es.now) }
{
    for e in es {
        add_tree(alloc, uses, e)?;
    }
    Ok(())
}

fn add_assigned(
    alloc: Global,
    uses: &mut Items<Name>,
    assigned: &Assigned,
) -> Result<(), AllocError>
    ensures { OnOk result (uses.new ≡ uses.old ++ specs.assigned_uses assigned.now) }
{
    match assigned {
        Assigned::Value(e) => add_tree(alloc, uses, e),
        Assigned::FieldPtr(_) => Ok(()),
    }
}

#[cycle(block)]
fn add_statement(alloc: Global, uses: &mut Items<Name>, statement: &Stmt) -> Result<(), AllocError>
    ensures { OnOk result (uses.new ≡ uses.old ++ specs.statement_uses statement.now) }
{
    match &statement.kind {
        StmtKind::Store(_, rhs) => add_assigned(alloc, uses, rhs),
        StmtKind::StoreField(_, _, rhs) => add_assigned(alloc, uses, rhs),
        StmtKind::Var(_, _, _) => Ok(()),
        StmtKind::If(e, one) => {
            add_tree(alloc, uses, e)?;
            add_block(alloc, uses, one)
        }
        StmtKind::IfElse(e, one, other) => {
            add_tree(alloc, uses, e)?;
            add_block(alloc, uses, one)?;
            add_block(alloc, uses, other)
        }
        StmtKind::Return(e) => add_tree(alloc, uses, e),
        StmtKind::Abort => Ok(()),
    }
}

#[cycle(block)]
fn add_statements(
    alloc: Global,
    uses: &mut Items<Name>,
    statements: &[Stmt],
) -> Result<(), AllocError>
    ensures { OnOk result (uses.new ≡ uses.old ++ flat_map specs.statement_uses statements.now) }
{
    for statement in statements {
        add_statement(alloc, uses, statement)?;
    }
    Ok(())
}

#[cycle(block)]
fn add_block(alloc: Global, uses: &mut Items<Name>, block: &Block) -> Result<(), AllocError>
    ensures { OnOk result (uses.new ≡ uses.old ++ specs.block_uses (block_of block.now)) }
{
    add_statements(alloc, uses, block.as_slice())?;
    Ok(())
}

fn add_action(
    alloc: Global,
    uses: &mut Items<Name>,
    action: &Option<ActionTree>,
) -> Result<(), AllocError>
    ensures { OnOk result (uses.new ≡ uses.old ++ specs.action_uses action.now) }
{
    match action {
        None => Ok(()),
        Some(ActionTree::Done { statements, .. }) => add_block(alloc, uses, statements),
        Some(ActionTree::Copied { .. }) => Ok(()),
    }
}

fn add_constant(
    alloc: Global,
    uses: &mut Items<Name>,
    constant: &ConstTree,
) -> Result<(), AllocError>
    ensures { OnOk result (uses.new ≡ uses.old ++ specs.constant_uses constant.now) }
{
    match constant {
        ConstTree::Number(_) => Ok(()),
        ConstTree::Named(name) => add_name(alloc, uses, name),
    }
}

fn add_plain(alloc: Global, uses: &mut Items<Name>, plain: &PlainTree) -> Result<(), AllocError>
    ensures { OnOk result (uses.new ≡ uses.old ++ specs.plain_uses plain.now) }
{
    match plain {
        PlainTree::Number(_) => Ok(()),
        PlainTree::Named(name) => add_name(alloc, uses, name),
    }
}

fn add_target(alloc: Global, uses: &mut Items<Name>, target: &TargetTree) -> Result<(), AllocError>
    ensures { OnOk result (uses.new ≡ uses.old ++ specs.target_uses target.now) }
{
    match target {
        TargetTree::Number(_) => Ok(()),
        TargetTree::Pointer(_) => Ok(()),
        TargetTree::Named(name) => add_name(alloc, uses, name),
    }
}

fn add_param(alloc: Global, uses: &mut Items<Name>, param: &ParamTree) -> Result<(), AllocError>
    ensures { OnOk result (uses.new ≡ uses.old ++ specs.param_uses param.now) }
{
    match param {
        ParamTree::Value(plain, _) => add_plain(alloc, uses, plain),
        ParamTree::Mutable(target, _) => add_target(alloc, uses, target),
        ParamTree::Bytes { room, .. } => add_constant(alloc, uses, room),
    }
}

fn add_params(alloc: Global, uses: &mut Items<Name>, params: &[ParamTree]) -> Result<(), AllocError>
    ensures { OnOk result (uses.new ≡ uses.old ++ flat_map specs.param_uses params.now) }
{
    for param in params {
        add_param(alloc, uses, param)?;
    }
    Ok(())
}

fn add_head(alloc: Global, uses: &mut Items<Name>, head: &HeadTree) -> Result<(), AllocError>
    ensures { OnOk result (uses.new ≡ uses.old ++ specs.head_uses head.now) }
{
    add_params(alloc, uses, head.params.as_slice())?;
    add_option(alloc, uses, &head.condition)
}

fn add_kind(
    alloc: Global,
    uses: &mut Items<Name>,
    kind: &TypeKind,
    span: Span,
) -> Result<(), AllocError>
    ensures { OnOk result (uses.new ≡ uses.old ++ specs.kind_uses kind.now span) }
{
    match kind {
        TypeKind::Number(_) => Ok(()),
        TypeKind::Unit => Ok(()),
        TypeKind::AllBytes => Ok(()),
        TypeKind::AllZeros => Ok(()),
        TypeKind::Named(name, args) => {
            add_text(alloc, uses, name.as_slice(), span)?;
            add_trees(alloc, uses, args.as_slice())
        }
    }
}

fn add_size(alloc: Global, uses: &mut Items<Name>, extent: &ExtentTree) -> Result<(), AllocError>
    ensures { OnOk result (uses.new ≡ uses.old ++ specs.size_uses extent.now) }
{
    match extent {
        ExtentTree::Bytes(e) => add_tree(alloc, uses, e),
        ExtentTree::ByteSize(e) => add_tree(alloc, uses, e),
        ExtentTree::SingleElement(e) => add_tree(alloc, uses, e),
        ExtentTree::Zeroterm(e) => add_tree(alloc, uses, e),
        ExtentTree::Bits(_) => Ok(()),
        ExtentTree::Given(e) => add_tree(alloc, uses, e),
        ExtentTree::OfCell(_, _) => Ok(()),
    }
}

fn add_extent(
    alloc: Global,
    uses: &mut Items<Name>,
    extent: &Option<ExtentTree>,
) -> Result<(), AllocError>
    ensures { OnOk result (uses.new ≡ uses.old ++ specs.extent_uses extent.now) }
{
    match extent {
        None => Ok(()),
        Some(extent) => add_size(alloc, uses, extent),
    }
}

fn add_field(alloc: Global, uses: &mut Items<Name>, field: &FieldTree) -> Result<(), AllocError>
    ensures { OnOk result (uses.new ≡ uses.old ++ specs.field_uses field.now) }
{
    add_kind(alloc, uses, &field.type_tree.kind, field.type_tree.span)?;
    add_extent(alloc, uses, &field.extent)?;
    add_option(alloc, uses, &field.refinement)?;
    add_action(alloc, uses, &field.action)
}

fn add_fields(alloc: Global, uses: &mut Items<Name>, fields: &[FieldTree]) -> Result<(), AllocError>
    ensures { OnOk result (uses.new ≡ uses.old ++ specs.fields_uses fields.now) }
{
    for field in fields {
        add_field(alloc, uses, field)?;
    }
    Ok(())
}

fn add_item(alloc: Global, uses: &mut Items<Name>, item: &ItemTree) -> Result<(), AllocError>
    ensures { OnOk result (uses.new ≡ uses.old ++ specs.item_uses item.now) }
{
    match &item.value {
        None => Ok(()),
        Some(constant) => add_constant(alloc, uses, constant),
    }
}

fn add_items(alloc: Global, uses: &mut Items<Name>, items: &[ItemTree]) -> Result<(), AllocError>
    ensures { OnOk result (uses.new ≡ uses.old ++ flat_map specs.item_uses items.now) }
{
    for item in items {
        add_item(alloc, uses, item)?;
    }
    Ok(())
}

fn add_case(alloc: Global, uses: &mut Items<Name>, tree: &CaseTree) -> Result<(), AllocError>
    ensures { OnOk result (uses.new ≡ uses.old ++ specs.case_uses tree.now) }
{
    add_constant(alloc, uses, &tree.constant)?;
    add_fields(alloc, uses, tree.fields.as_slice())
}

fn add_cases(alloc: Global, uses: &mut Items<Name>, cases: &[CaseTree]) -> Result<(), AllocError>
    ensures { OnOk result (uses.new ≡ uses.old ++ flat_map specs.case_uses cases.now) }
{
    for one in cases {
        add_case(alloc, uses, one)?;
    }
    Ok(())
}

fn add_default(
    alloc: Global,
    uses: &mut Items<Name>,
    default: &Option<Items<FieldTree>>,
) -> Result<(), AllocError>
    ensures { OnOk result (uses.new ≡ uses.old ++ specs.default_uses default.now) }
{
    match default {
        None => Ok(()),
        Some(fields) => add_fields(alloc, uses, fields.as_slice()),
    }
}

fn add_definition(alloc: Global, uses: &mut Items<Name>, definition: &Def) -> Result<(), AllocError>
    ensures { OnOk result (uses.new ≡ uses.old ++ specs.definition_uses definition.now) }
{
    match definition {
        Def::Define(_) => Ok(()),
        Def::Enum(tree) => add_items(alloc, uses, tree.items.as_slice()),
        Def::Alias(tree) => add_plain(alloc, uses, &tree.target),
        Def::Struct(tree) => {
            add_head(alloc, uses, &tree.head)?;
            add_fields(alloc, uses, tree.fields.as_slice())
        }
        Def::Casetype(tree) => {
            add_head(alloc, uses, &tree.head)?;
            add_tree(alloc, uses, &tree.subject)?;
            add_cases(alloc, uses, tree.cases.as_slice())?;
            add_default(alloc, uses, &tree.default)
        }
        Def::Output(_) => Ok(()),
    }
}

/// The parts that a part uses. `AllocError`: out of memory.
pub(crate) fn part_uses(alloc: Global, part: &PartTree) -> Result<Items<Name>, AllocError>
    ensures { IfOk result (λ uses. uses ≡ specs.part_uses part.now) }
{
    let mut uses = Items::new(alloc);
    for definition in part.definitions.as_slice() {
        add_definition(alloc, &mut uses, definition)?;
    }
    Ok(uses)
}
