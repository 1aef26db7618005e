//! What stands after a field's name: an array's size, a width of bits, or what gives a field without bytes its value.

ghost use Rattle.std.specs.Prelude.{◌≡◌, ◌≤◌, IfOk, OnErr, OnOk, IfSome};
ghost use Rattle.td_elab_rules.specs.Breach.{first_of};
ghost use Rattle.td_elab_rules.specs.Extents.{zero_ended, bits_in, is_width, extent_breaches, extent_core, allowed, bit_width};
ghost use Rattle.td_elab_fields.specs.Memory.{HasSizeOperator};

use crate::given::{check_held, element_number, given_extent, held_source, tree_source};
use std::alloc::{AllocError, Global};
use td_ast::fields::{ExtentTree, TypeTree};
use td_core::expressions::CoreExpr;
use td_core::module::{Element, Extent};
use td_elab_actions::cells::cell_of;
use td_elab_exprs::expressions::number;
use td_elab_exprs::findings::Findings;
use td_elab_exprs::look_up::look_up;
use td_elab_rules::breach::Rule;
use td_elab_rules::known::{Known, Scope};
use td_elab_types::types::{is_byte, number_type};
use td_kinds::elements::element_step;
use td_num::number::{NumberType, byte_count};

/// How many bits a base has; 64 for what is no number type.
fn bits_in(base: Option<NumberType>) -> u64
    ensures { result ≡ bits_in base }
{
    match base {
        Some(number) => 8 * u64::from(byte_count(number.width)),
        None => 64,
    }
}

/// Whether a width of bits is between 1 and the base's bits.
fn is_width(base: Option<NumberType>, width: u64) -> bool
    ensures { result ≡ is_width base width }
{
    0 < width && width <= bits_in(base)
}

/// Elements up to a zero, where they are numbers.
fn zero_ended(element: &Element, size: CoreExpr) -> Extent
    ensures { result ≡ zero_ended element.now size }
{
    match element {
        Element::Number(_) => Extent::UpToZero { size },
        _ => Extent::Once,
    }
}

/// How often an element of a type stands there; the breaches are noted. `AllocError`: an array's size or a value that is given
/// has an operator or is `is_range_okay`, and out of memory.
#[tactic(auto, using(td_elab_exprs::proofs::Steps::first_append))]
pub fn extent(
    alloc: Global,
    known: &Known,
    scope: &Scope,
    tree: &TypeTree,
    element: &Element,
    extent: &Option<ExtentTree>,
    findings: &mut Findings,
) -> Result<Extent, AllocError>
    ensures memory { OnErr result (HasSizeOperator extent.now) }
    ensures core { IfOk result (λ x. x ≡ extent_core known.now scope.now element.now extent.now) }
    ensures first { OnOk result (findings.new.first ≡ first_of findings.old.first (extent_breaches known.now scope.now tree.now extent.now)) }
{
    let kinds = known.kinds.as_slice();
    match extent {
        None => Ok(Extent::Once),
        Some(ExtentTree::Bytes(e)) => {
            let is_byte = is_byte(number_type(known, scope, tree));
            findings.note_if(!is_byte, Rule::Mismatch, tree.span);
            let size = number(alloc, known, scope, e, findings)?.core;
            let step = element_step(kinds, element);
            Ok(Extent::Filling { size, step })
        }
        Some(ExtentTree::ByteSize(e)) => {
            let size = number(alloc, known, scope, e, findings)?.core;
            let step = element_step(kinds, element);
            Ok(Extent::Filling { size, step })
        }
        Some(ExtentTree::SingleElement(e)) => {
            let size = number(alloc, known, scope, e, findings)?.core;
            let step = element_step(kinds, element);
            Ok(Extent::OnceFilling { size, step })
        }
        Some(ExtentTree::Zeroterm(e)) => {
            let is_number = number_type(known, scope, tree).is_some();
            findings.note_if(!is_number, Rule::Mismatch, tree.span);
            let size = number(alloc, known, scope, e, findings)?.core;
            Ok(zero_ended(element, size))
        }
        Some(ExtentTree::Bits(n)) => {
            let base = number_type(known, scope, tree);
            findings.note_if(base.is_none(), Rule::Mismatch, tree.span);
            findings.note_if(!is_width(base, n.value), Rule::NotConstant, n.span);
            Ok(Extent::Once)
        }
        Some(ExtentTree::Given(e)) => {
            let base = number_type(known, scope, tree);
            findings.note_if(base.is_none(), Rule::Mismatch, tree.span);
            let own = element_number(element);
            let source = tree_source(alloc, known, scope, base, own, e, findings)?;
            Ok(given_extent(source))
        }
        Some(ExtentTree::OfCell(star, p)) => {
            let base = number_type(known, scope, tree);
            findings.note_if(base.is_none(), Rule::Mismatch, tree.span);
            let target = cell_of(look_up(known, scope, p.text.as_slice()));
            check_held(base, target, *star, p.span, findings);
            Ok(given_extent(held_source(element_number(element), target)))
        }
    }
}

/// A width of bits of a base, where it is allowed.
fn allowed(base: Option<NumberType>, width: u64) -> Option<u32>
    ensures width { result ≡ allowed base width }
    ensures within { IfSome result (λ w. w ≤ 64) }
{
    match base {
        Some(_) if is_width(base, width) => Some(width as u32),
        _ => None,
    }
}

/// How many bits a field has of a number, where it is a bit field of an allowed width.
pub(crate) fn bit_width(
    known: &Known,
    scope: &Scope,
    tree: &TypeTree,
    extent: &Option<ExtentTree>,
) -> Option<u32>
    ensures width { result ≡ bit_width known.now scope.now tree.now extent.now }
    ensures within { IfSome result (λ w. w ≤ 64) }
{
    match extent {
        Some(ExtentTree::Bits(n)) => allowed(number_type(known, scope, tree), n.value),
        _ => None,
    }
}
