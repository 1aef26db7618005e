//! Fields, and fields one after the other.

ghost use Rattle.std.specs.Prelude.{◌≡◌};
ghost use Rattle.td_kinds.specs.Kinds.{kind_at, field_kind, fields_kind};
ghost use Rattle.td_kinds.specs.KindRules.{field_faults, fields_faults, first_fault};

use crate::elements::element_kind;
use crate::error::KindFault;
use crate::sizes::{at_least, exactly, joined, sized};
use td_core::kind::Kind;
use td_core::module::{Element, Extent, Field};
use td_expr::constant::constant_of;

/// The kind of a field.
pub(crate) fn field_kind(kinds: &[Kind], element: &Element, extent: &Extent) -> Kind
    ensures { result ≡ field_kind (kind_at kinds.now) element.now extent.now }
{
    match extent {
        Extent::Once => element_kind(kinds, element),
        Extent::Filling { size, .. } | Extent::OnceFilling { size, .. } => sized(constant_of(size)),
        Extent::UpToZero { .. } => at_least(element_kind(kinds, element).least),
        Extent::Given(_) => exactly(0),
    }
}

/// What is refused of a field, which may be the last of its struct, case or `default`. K1 is named before K2.
pub(crate) fn field_fault(kinds: &[Kind], field: &Field, last: bool) -> Option<KindFault>
    ensures { result ≡ first_fault (field_faults (kind_at kinds.now) field.now last) }
{
    let span = field.place;
    let element = element_kind(kinds, &field.element);
    let filled = match field.extent {
        Extent::Filling { .. } => true,
        _ => false,
    };
    if filled && element.least == 0 {
        return Some(KindFault::ZeroElement { span });
    }
    if filled && element.rest {
        return Some(KindFault::RestNotLast { span });
    }
    if !last && field_kind(kinds, &field.element, &field.extent).rest {
        return Some(KindFault::RestNotLast { span });
    }
    None
}

/// The kind of fields one after the other, from the last one back.
pub(crate) fn fields_kind(kinds: &[Kind], fields: &[Field]) -> Kind
    ensures { result ≡ fields_kind (kind_at kinds.now) fields.now }
{
    let mut kind = exactly(0);
    for k in 0..fields.len() {
        let field = &fields[fields.len() - 1 - k];
        let own = field_kind(kinds, &field.element, &field.extent);
        kind = if k == 0 { own } else { joined(own, kind) };
    }
    kind
}

/// The first of what is refused of fields, in the order of the text.
pub(crate) fn fields_fault(kinds: &[Kind], fields: &[Field]) -> Option<KindFault>
    ensures { result ≡ first_fault (fields_faults (kind_at kinds.now) fields.now) }
{
    let count = fields.len();
    for (i, field) in fields.iter().enumerate() {
        if let Some(fault) = field_fault(kinds, field, i + 1 == count) {
            return Some(fault);
        }
    }
    None
}
