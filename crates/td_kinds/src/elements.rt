//! Elements: what a field holds one or many of.

ghost use Rattle.std.specs.Prelude.{◌≡◌};
ghost use Rattle.td_kinds.specs.Kinds.{kind_at, element_kind, constant_size};

use crate::sizes::{all_left, constant_size, exactly};
use td_core::kind::Kind;
use td_core::module::Element;
use td_num::number::byte_count;

/// The kind of an element, by the kinds of the definitions before it, in their order.
pub(crate) fn element_kind(kinds: &[Kind], element: &Element) -> Kind
    ensures { result ≡ element_kind (kind_at kinds.now) element.now }
{
    match element {
        Element::Number(number) => exactly(u64::from(byte_count(number.width))),
        Element::Listed { base, .. } => exactly(u64::from(byte_count(base.width))),
        Element::Named { definition, .. } => {
            kinds
                .get(*definition as usize)
                .copied()
                .unwrap_or(exactly(0))
        }
        Element::Unit => exactly(0),
        Element::Rest | Element::Zeros => all_left(),
    }
}

/// The size of each value of an element, where they all have one, by the kinds of the definitions before it: the step of
/// an array of such elements.
pub fn element_step(kinds: &[Kind], element: &Element) -> Option<u64>
    ensures { result ≡ constant_size (element_kind (kind_at kinds.now) element.now) }
{
    constant_size(element_kind(kinds, element))
}
