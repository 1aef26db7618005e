//! Which number a field brings into scope.

ghost use Rattle.std.specs.Prelude.{◌≡◌};
ghost use Rattle.td_direct.specs.Counting.{IsCounted, plain_number};

use td_core::module::{Element, Extent};
use td_core::outcome::Verdict;
use td_meaning::given::given_value;
use td_num::number::NumberType;

/// A field's bytes: how they end, and the number in them, or 0 where it isn't needed.
#[derive(Clone, Copy, PartialEq, Eq)]
pub struct Content {
    pub verdict: Verdict,
    pub value: u64,
}

/// What number a field brings into scope.
#[derive(Clone, Copy, PartialEq, Eq)]
pub enum Counted {
    /// A number of this type.
    Number(NumberType),
    /// A number of this type that is among the values of an enum, by their place in the module.
    Listed { base: NumberType, values: u32 },
    /// None that its bytes say.
    Plain,
}

/// What number a field brings into scope.
pub fn number_in(element: &Element, extent: &Extent) -> Counted
    ensures { IsCounted result extent.now element.now }
{
    match extent {
        Extent::Once => match element {
            Element::Number(number_type) => Counted::Number(*number_type),
            Element::Listed { base, values } => Counted::Listed {
                base: *base,
                values: *values,
            },
            Element::Named { .. } => Counted::Plain,
            Element::Unit => Counted::Plain,
            Element::Rest => Counted::Plain,
            Element::Zeros => Counted::Plain,
        },
        Extent::Filling { .. } => Counted::Plain,
        Extent::OnceFilling { .. } => Counted::Plain,
        Extent::UpToZero { .. } => Counted::Plain,
        Extent::Given(_) => Counted::Plain,
    }
}

/// The number of a field without bytes that begins at `start`, for the values in scope, and what the cells hold there; 0 of each
/// other field.
pub fn plain_number(
    element: &Element,
    extent: &Extent,
    env: &[u64],
    places: &[usize],
    end: u32,
    start: u32,
    cells: &[u64],
) -> u64
    ensures { result ≡ plain_number element.now extent.now env.now places.now end start cells.now }
{
    match element {
        Element::Number(_) => match extent {
            Extent::Once => 0,
            Extent::Filling { .. } => 0,
            Extent::OnceFilling { .. } => 0,
            Extent::UpToZero { .. } => 0,
            Extent::Given(source) => given_value(source, env, places, end, start, cells),
        },
        Element::Listed { .. } => 0,
        Element::Named { .. } => 0,
        Element::Unit => 0,
        Element::Rest => 0,
        Element::Zeros => 0,
    }
}
