//! What is known of a field.

use td_ast::token::Span;
use td_core::actions::Action;
use td_core::expressions::{CoreExpr, Scalar};
use td_core::module::{CopyOut, Element, Extent, NameId, Part};
use td_num::items::Items;
use td_num::number::NumberType;

/// The number that a field gives to what stands after its name: its type, and the greatest that it can be.
#[derive(Clone, Copy, PartialEq, Eq)]
pub struct Readable {
    /// Its width, or that it is a truth value.
    pub scalar: Scalar,
    /// The greatest that it can be.
    pub most: u64,
}

/// A field with its one part, before bit fields are gathered.
#[derive(Drop)]
pub struct FlatField {
    /// What it holds one or many of.
    pub element: Element,
    /// How many of them, or how many bytes.
    pub extent: Extent,
    /// Where its bytes are copied to.
    pub copy: Option<CopyOut>,
    /// How many bits it has of a number, where it is a bit field.
    pub width: Option<u32>,
    /// Its name's number.
    pub name: NameId,
    /// What must hold of it.
    pub refinement: Option<CoreExpr>,
    /// What is done once it was validated.
    pub action: Option<Action>,
    /// Where its name stands in the text.
    pub place: Span,
}

/// A number that is divided among bit fields, and how many of its bits are taken.
#[derive(Clone, Copy, PartialEq, Eq)]
pub struct UnitRoom {
    /// The number's type.
    pub base: NumberType,
    /// How many of its bits are taken.
    pub filled: u32,
}

/// A unit of bit fields so far: their number, their parts, and the first one's place.
#[derive(Drop)]
pub struct OpenUnit {
    /// Their number.
    pub room: UnitRoom,
    /// The parts so far, in the order of the text.
    pub parts: Items<Part>,
    /// Where the first one stands in the text.
    pub place: Span,
}
