//! Elements that are passed over: nothing of them is looked at, and each takes as many bytes.

ghost use Rattle.std.specs.Prelude.{◌≡◌, ℕ, ◌+◌, ◌<◌, ◌%◌, List, IfSome, IsTrue, Option};
ghost use Rattle.td_direct.specs.Passing.{AreSizes, IsPassed, passes_all};

use td_core::module::{Element, Module};
use td_num::number::byte_count;

/// A module, and for each of its definitions the size of what is passed over without a look, where it is such a one.
/// Definitions past the end of that list are looked at.
#[derive(Drop)]
pub struct Types<'a> {
    pub module: &'a Module,
    pub sizes: &'a [Option<u64>],
    pub ghost right: { AreSizes module.now sizes.now },
}

/// The size of an element that may be passed over without a look, where it is one: it then accepts wherever it has its
/// bytes, and changes nothing.
pub fn passed_size(types: &Types, bound: usize, element: &Element) -> Option<u64>
    ensures { IfSome result (λ size. IsPassed types.now.module.now bound element.now size) }
{
    match element {
        Element::Number(number_type) => Some(byte_count(number_type.width) as u64),
        Element::Named { definition, .. } => {
            let place = *definition as usize;
            if place >= bound {
                return None;
            }
            *types.sizes.get(place)?
        }
        _ => None,
    }
}

/// Whether elements of a size that are passed over without a look fill so many bytes.
pub(crate) fn passes_all(size: Option<u64>, count: u64) -> bool
    ensures { result ≡ passes_all size count }
{
    match size {
        None => false,
        Some(size) => size != 0 && count % size == 0,
    }
}
