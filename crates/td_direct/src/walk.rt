//! What a validation goes by.

use crate::passing::Types;
use std::alloc::Global;
use td_core::module::NameId;

/// What stays the same while a definition's fields are validated: the allocator, the types, the bound below which the
/// definitions lie that may be named, the definition's name, which the frames of its fields bear, for each cell of the definition
/// (those of its copy buffers last) its place among all cells, and how many cells the entry point has: behind them stand those of its
/// copy buffers.
#[derive(Clone, Copy)]
pub struct Walk<'t, 'm, 'p> {
    pub alloc: Global,
    pub types: &'t Types<'m>,
    pub bound: usize,
    pub ty: NameId,
    pub places: &'p [usize],
    pub first: usize,
}
