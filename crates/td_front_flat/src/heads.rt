//! Constants, plain types and heads as they stand in the whole text.

ghost use Rattle.std.specs.Prelude.{◌≡◌, IfOk, OnOk};
ghost use Rattle.td_front_flat.specs.Definitions as specs;
ghost use Rattle.td_front_flat.specs.Expressions as expressions;

use crate::expressions::flat_option;
use crate::names::{given_name, used_name};
use crate::own::Own;
use std::alloc::{AllocError, Global};
use td_ast::names::{ConstTree, PlainTree};
use td_ast::parameters::{HeadTree, ParamTree, TargetTree};
use td_names::names::Names;
use td_num::items::Items;

pub(crate) fn flat_constant(
    alloc: Global,
    own: &Own,
    scope: &Names,
    constant: &ConstTree,
) -> Result<ConstTree, AllocError>
    ensures { IfOk result (λ c. c ≡ specs.flat_constant own.now scope.now constant.now) }
{
    match constant {
        ConstTree::Number(literal) => Ok(ConstTree::Number(*literal)),
        ConstTree::Named(name) => {
            let name = used_name(alloc, own, scope, name)?;
            Ok(ConstTree::Named(name))
        }
    }
}

pub(crate) fn flat_plain(
    alloc: Global,
    own: &Own,
    scope: &Names,
    plain: &PlainTree,
) -> Result<PlainTree, AllocError>
    ensures { IfOk result (λ t. t ≡ specs.flat_plain own.now scope.now plain.now) }
{
    match plain {
        PlainTree::Number(number) => Ok(PlainTree::Number(*number)),
        PlainTree::Named(name) => {
            let name = used_name(alloc, own, scope, name)?;
            Ok(PlainTree::Named(name))
        }
    }
}

fn flat_target(
    alloc: Global,
    own: &Own,
    scope: &Names,
    target: &TargetTree,
) -> Result<TargetTree, AllocError>
    ensures { IfOk result (λ t. t ≡ specs.flat_target own.now scope.now target.now) }
{
    match target {
        TargetTree::Number(number) => Ok(TargetTree::Number(*number)),
        TargetTree::Pointer(at) => Ok(TargetTree::Pointer(*at)),
        TargetTree::Named(name) => {
            let name = used_name(alloc, own, scope, name)?;
            Ok(TargetTree::Named(name))
        }
    }
}

fn flat_param(
    alloc: Global,
    own: &Own,
    scope: &Names,
    param: &ParamTree,
) -> Result<ParamTree, AllocError>
    ensures { IfOk result (λ p. p ≡ specs.flat_param own.now scope.now param.now) }
{
    match param {
        ParamTree::Value(plain, name) => {
            let name = given_name(alloc, own, name)?;
            let plain = flat_plain(alloc, own, scope, plain)?;
            Ok(ParamTree::Value(plain, name))
        }
        ParamTree::Mutable(target, name) => {
            let name = given_name(alloc, own, name)?;
            let target = flat_target(alloc, own, scope, target)?;
            Ok(ParamTree::Mutable(target, name))
        }
        ParamTree::Bytes { name, room } => {
            let name = given_name(alloc, own, name)?;
            let room = flat_constant(alloc, own, scope, room)?;
            Ok(ParamTree::Bytes { name, room })
        }
    }
}

fn see_param(alloc: Global, scope: &mut Names, param: &ParamTree) -> Result<(), AllocError>
    ensures { OnOk result (scope.new ≡ specs.with_param scope.old param.now) }
{
    match param {
        ParamTree::Value(_, name) => scope.see(alloc, name.text.as_slice()),
        ParamTree::Mutable(_, name) => scope.see(alloc, name.text.as_slice()),
        ParamTree::Bytes { name, .. } => scope.see(alloc, name.text.as_slice()),
    }
}

// Parameters, and then they are in scope.
fn flat_params(
    alloc: Global,
    own: &Own,
    scope: &mut Names,
    params: &[ParamTree],
) -> Result<Items<ParamTree>, AllocError>
    ensures flat { IfOk result (λ ps. ps ≡ specs.flat_params own.now scope.old params.now) }
    ensures scope { OnOk result (scope.new ≡ specs.with_params scope.old params.now) }
{
    let mut flat = Items::new(alloc);
    for param in params {
        flat.push(flat_param(alloc, own, scope, param)?)?;
        see_param(alloc, scope, param)?;
    }
    Ok(flat)
}

/// A head, where nothing is in scope before it; then its parameters are. `AllocError`: out of memory.
pub(crate) fn flat_head(
    alloc: Global,
    own: &Own,
    scope: &mut Names,
    head: &HeadTree,
) -> Result<HeadTree, AllocError>
    ensures flat { IfOk result (λ h. h ≡ record { params = specs.flat_params own.now scope.old head.now.params; condition = expressions.flat_option own.now (specs.with_params scope.old head.now.params) head.now.condition }) }
    ensures scope { OnOk result (scope.new ≡ specs.with_params scope.old head.now.params) }
{
    let params = flat_params(alloc, own, scope, head.params.as_slice())?;
    let condition = flat_option(alloc, own, scope, &head.condition)?;
    Ok(HeadTree { params, condition })
}
