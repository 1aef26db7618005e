//! Single fields.

ghost use Rattle.std.specs.Prelude.{◌≡◌, ◌≤◌, ◌-◌, ◌^◌, IfOk, OnOk, IfSome};
ghost use Rattle.td_ast.specs.Extents.{is_array};
ghost use Rattle.td_elab_rules.specs.Breach.{first_of};
ghost use Rattle.td_elab_rules.specs.Fields.{found_base, base_of, readable_bits, readable_of, with_readable, with_field, field_name_breaches, refined_breaches, refinement_core};

use crate::arrays::bit_width;
use std::alloc::{AllocError, Global};
use td_ast::fields::{ExtentTree, FieldTree, TypeKind};
use td_core::expressions::CoreExpr;
use td_elab_actions::scopes::{add_level, add_local, add_value, scalar_of};
use td_elab_exprs::findings::Findings;
use td_elab_exprs::look_up::{is_literal_name, look_up};
use td_elab_rules::breach::Rule;
use td_elab_rules::fields::Readable;
use td_elab_rules::known::{Found, Known, Local, Meaning, Scope, Taken};
use td_expr::types::greatest_of;
use td_num::number::{NumberType, Width};

/// The number type of a number, or of the numbers of an enum.
fn found_base(found: Found) -> Option<NumberType>
    ensures { result ≡ found_base found }
{
    match found {
        Found::Global(Meaning::Number(number)) => Some(number),
        Found::Global(Meaning::Enum(base, _)) => Some(base),
        _ => None,
    }
}

/// The same of a type.
fn base_of(known: &Known, scope: &Scope, kind: &TypeKind) -> Option<NumberType>
    ensures { result ≡ base_of known.now scope.now kind.now }
{
    match kind {
        TypeKind::Number(number) => Some(*number),
        TypeKind::Unit | TypeKind::AllBytes | TypeKind::AllZeros => None,
        TypeKind::Named(name, _) => found_base(look_up(known, scope, name.as_slice())),
    }
}

/// Whether it is an array.
fn is_array(extent: &Option<ExtentTree>) -> bool
    ensures { result ≡ is_array extent.now }
{
    match extent {
        None | Some(ExtentTree::Bits(_) | ExtentTree::Given(_) | ExtentTree::OfCell(_, _)) => false,
        Some(_) => true,
    }
}

/// The greatest number of so many bits.
fn greatest_bits(width: u32) -> u64
    requires { width ≤ 64 }
    ensures { result ≡ 2 ^ width - 1 }
{
    if width == 64 {
        return u64::MAX;
    }
    2u64.pow(width) - 1
}

/// Any number of a width, or of so many bits of it.
fn readable_bits(width: Width, bits: Option<u32>) -> Readable
    requires { IfSome bits (λ w. w ≤ 64) }
    ensures { result ≡ readable_bits width bits }
{
    let scalar = scalar_of(width);
    let most = match bits {
        None => greatest_of(scalar),
        Some(bits) => greatest_bits(bits),
    };
    Readable { scalar, most }
}

/// The number that a field gives, where it is a number, an enum or bits, but no array.
pub(crate) fn readable_of(known: &Known, scope: &Scope, tree: &FieldTree) -> Option<Readable>
    ensures { result ≡ readable_of known.now scope.now tree.now }
{
    if is_array(&tree.extent) {
        return None;
    }
    let bits = bit_width(known, scope, &tree.type_tree, &tree.extent);
    match base_of(known, scope, &tree.type_tree.kind) {
        Some(base) => Some(readable_bits(base.width, bits)),
        None => None,
    }
}

/// The name of a field in scope, with the number that it gives. `AllocError`: out of memory.
pub(crate) fn add_readable(
    alloc: Global,
    scope: &mut Scope,
    name: &[u8],
    readable: Option<Readable>,
) -> Result<(), AllocError>
    ensures { OnOk result (scope.new ≡ with_readable scope.old name.now readable) }
{
    match readable {
        Some(v) => add_value(alloc, scope, name, v.scalar, v.most),
        None => {
            add_local(alloc, scope, name, Local::Unreadable)?;
            add_level(scope)
        }
    }
}

/// Notes the name of a field that was given before.
pub fn check_name(known: &Known, taken: &Taken, tree: &FieldTree, findings: &mut Findings)
    ensures { findings.new.first ≡ first_of findings.old.first (field_name_breaches known.now taken.now tree.now) }
{
    let name = tree.name.text.as_slice();
    let is_given = taken.outer.contains(name)
        || (taken.fields.contains(name) || is_literal_name(known, name));
    findings.note_if(is_given, Rule::Twice, tree.name.span);
}

/// Notes a refinement of a field that gives no number.
pub(crate) fn check_refined(known: &Known, scope: &Scope, tree: &FieldTree, findings: &mut Findings)
    ensures { findings.new.first ≡ first_of findings.old.first (refined_breaches known.now scope.now tree.now) }
{
    let is_readable = readable_of(known, scope, tree).is_some();
    let is_broken = tree.refinement.is_some() && !is_readable;
    findings.note_if(is_broken, Rule::NotReadable, tree.name.span);
}

/// The refinement of a field that gives this number.
pub(crate) fn refinement_of(
    readable: Option<Readable>,
    refinement: Option<CoreExpr>,
) -> Option<CoreExpr>
    ensures { result ≡ refinement_core readable refinement }
{
    match readable {
        Some(_) => refinement,
        None => None,
    }
}

/// The name of a field in scope, and the number that it gives. `AllocError`: out of memory.
pub fn add_field(
    alloc: Global,
    known: &Known,
    scope: &mut Scope,
    tree: &FieldTree,
) -> Result<Option<Readable>, AllocError>
    ensures readable { IfOk result (λ r. r ≡ readable_of known.now scope.old tree.now) }
    ensures scope { OnOk result (scope.new ≡ with_field known.now scope.old tree.now) }
{
    let readable = readable_of(known, scope, tree);
    add_readable(alloc, scope, tree.name.text.as_slice(), readable)?;
    Ok(readable)
}
