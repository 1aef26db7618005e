//! Fields as they stand in the whole text.

ghost use Rattle.std.specs.Prelude.{◌≡◌, Some, IfOk, OnOk};
ghost use Rattle.td_front_flat.specs.Definitions as specs;
ghost use Rattle.td_front_flat.specs.Expressions as expressions;

use crate::actions::flat_action;
use crate::expressions::{flat_given, flat_option, flat_tree, flat_trees};
use crate::names::{given_name, meant, used_name};
use crate::own::Own;
use std::alloc::{AllocError, Global};
use td_ast::actions::ActionTree;
use td_ast::expressions::Expr;
use td_ast::fields::{ExtentTree, FieldTree, TypeKind, TypeTree};
use td_ast::names::Name;
use td_ast::parameters::ParamTree;
use td_names::names::Names;
use td_num::items::Items;

fn flat_kind(
    alloc: Global,
    own: &Own,
    scope: &Names,
    kind: &TypeKind,
) -> Result<TypeKind, AllocError>
    ensures { IfOk result (λ k. k ≡ specs.flat_kind own.now scope.now kind.now) }
{
    match kind {
        TypeKind::Number(number) => Ok(TypeKind::Number(*number)),
        TypeKind::Unit => Ok(TypeKind::Unit),
        TypeKind::AllBytes => Ok(TypeKind::AllBytes),
        TypeKind::AllZeros => Ok(TypeKind::AllZeros),
        TypeKind::Named(name, args) => {
            let name = meant(alloc, own, scope, name.as_slice())?;
            let args = flat_trees(alloc, own, scope, args.as_slice())?;
            Ok(TypeKind::Named(name, args))
        }
    }
}

fn flat_type(
    alloc: Global,
    own: &Own,
    scope: &Names,
    tree: &TypeTree,
) -> Result<TypeTree, AllocError>
    ensures { IfOk result (λ t. t ≡ specs.flat_type own.now scope.now tree.now) }
{
    let kind = flat_kind(alloc, own, scope, &tree.kind)?;
    Ok(TypeTree {
        span: tree.span,
        kind,
    })
}

fn flat_size(
    alloc: Global,
    own: &Own,
    scope: &Names,
    extent: &ExtentTree,
) -> Result<ExtentTree, AllocError>
    ensures { IfOk result (λ x. Some x ≡ specs.flat_extent own.now scope.now (Some extent.now)) }
{
    Ok(match extent {
        ExtentTree::Bytes(e) => ExtentTree::Bytes(flat_tree(alloc, own, scope, e)?),
        ExtentTree::ByteSize(e) => ExtentTree::ByteSize(flat_tree(alloc, own, scope, e)?),
        ExtentTree::SingleElement(e) => {
            ExtentTree::SingleElement(flat_tree(alloc, own, scope, e)?)
        }
        ExtentTree::Zeroterm(e) => ExtentTree::Zeroterm(flat_tree(alloc, own, scope, e)?),
        ExtentTree::Bits(literal) => ExtentTree::Bits(*literal),
        ExtentTree::Given(e) => ExtentTree::Given(flat_given(alloc, own, scope, e)?),
        ExtentTree::OfCell(star, cell) => {
            ExtentTree::OfCell(*star, used_name(alloc, own, scope, cell)?)
        }
    })
}

fn flat_extent(
    alloc: Global,
    own: &Own,
    scope: &Names,
    extent: &Option<ExtentTree>,
) -> Result<Option<ExtentTree>, AllocError>
    ensures { IfOk result (λ x. x ≡ specs.flat_extent own.now scope.now extent.now) }
{
    match extent {
        None => Ok(None),
        Some(extent) => {
            let flat = flat_size(alloc, own, scope, extent)?;
            Ok(Some(flat))
        }
    }
}

// Where a value is let go, each way through its variants is a way through the function. So what has the most comes last, or is let
// go by a call.

// What stands up to a field's size, where the field isn't in scope.
#[derive(Drop)]
struct Front {
    type_tree: TypeTree,
    name: Name,
    extent: Option<ExtentTree>,
}

// What stands behind it, where the field is in scope.
#[derive(Drop)]
struct Back {
    refinement: Option<Expr>,
    action: Option<ActionTree>,
}

fn flat_front(
    alloc: Global,
    own: &Own,
    scope: &Names,
    field: &FieldTree,
) -> Result<Front, AllocError>
    ensures type_tree { IfOk result (λ f. f.type_tree ≡ specs.flat_type own.now scope.now field.now.type_tree) }
    ensures name { IfOk result (λ f. f.name ≡ expressions.given_name own.now field.now.name) }
    ensures extent { IfOk result (λ f. f.extent ≡ specs.flat_extent own.now scope.now field.now.extent) }
{
    let name = given_name(alloc, own, &field.name)?;
    let type_tree = flat_type(alloc, own, scope, &field.type_tree)?;
    let extent = flat_extent(alloc, own, scope, &field.extent)?;
    Ok(Front {
        type_tree,
        name,
        extent,
    })
}

fn flat_back(
    alloc: Global,
    own: &Own,
    params: &[ParamTree],
    scope: &mut Names,
    field: &FieldTree,
) -> Result<Back, AllocError>
    ensures refinement { IfOk result (λ b. b.refinement ≡ expressions.flat_option own.now (specs.with_field scope.old field.now) field.now.refinement) }
    ensures action { IfOk result (λ b. b.action ≡ expressions.flat_action own.now params.now (specs.with_field scope.old field.now) field.now.action) }
    ensures scope { OnOk result (scope.new ≡ specs.with_field scope.old field.now) }
{
    scope.see(alloc, field.name.text.as_slice())?;
    let action = flat_action(alloc, own, params, scope, &field.action)?;
    let refinement = flat_option(alloc, own, scope, &field.refinement)?;
    Ok(Back { refinement, action })
}

/// A field, and then it is in scope. `AllocError`: out of memory.
fn flat_field(
    alloc: Global,
    own: &Own,
    params: &[ParamTree],
    scope: &mut Names,
    field: &FieldTree,
) -> Result<FieldTree, AllocError>
    ensures flat { IfOk result (λ f. f ≡ specs.flat_field own.now params.now scope.old field.now) }
    ensures scope { OnOk result (scope.new ≡ specs.with_field scope.old field.now) }
{
    let front = flat_front(alloc, own, scope, field)?;
    match flat_back(alloc, own, params, scope, field) {
        Ok(back) => Ok(FieldTree {
            type_tree: front.type_tree,
            name: front.name,
            extent: front.extent,
            refinement: back.refinement,
            action: back.action,
        }),
        Err(error) => {
            drop(front);
            Err(error)
        }
    }
}

// Fields, and then they are in scope.
fn fields_seen(
    alloc: Global,
    own: &Own,
    params: &[ParamTree],
    scope: &mut Names,
    fields: &[FieldTree],
) -> Result<Items<FieldTree>, AllocError>
    ensures flat { IfOk result (λ fs. fs ≡ specs.flat_fields own.now params.now scope.old fields.now) }
    ensures scope { OnOk result (scope.new ≡ specs.with_fields scope.old fields.now) }
{
    let mut flat = Items::new(alloc);
    for field in fields {
        flat.push(flat_field(alloc, own, params, scope, field)?)?;
    }
    Ok(flat)
}

/// Fields as they stand in the whole text, where these locals are in scope. `AllocError`: out of memory.
#[tactic(auto, using(crate::proofs::Scopes::fields_left))]
pub(crate) fn flat_fields(
    alloc: Global,
    own: &Own,
    params: &[ParamTree],
    scope: &mut Names,
    fields: &[FieldTree],
) -> Result<Items<FieldTree>, AllocError>
    ensures flat { IfOk result (λ fs. fs ≡ specs.flat_fields own.now params.now scope.old fields.now) }
    ensures scope { OnOk result (scope.new ≡ scope.old) }
{
    let outside = scope.len();
    let flat = fields_seen(alloc, own, params, scope, fields)?;
    scope.truncate(outside);
    Ok(flat)
}
