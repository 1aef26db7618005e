//! What a walk goes by, how far it came, and what it has written.

use std::alloc::Global;
use td_core::module::Module;
use td_write_values::value::Value;

/// What stays the same while a definition's value is written: the allocator, the module, the bound below which the
/// definitions lie that may be named, and for each cell of the definition its place among all cells.
#[derive(Clone, Copy)]
pub struct Walk<'m, 'p> {
    pub alloc: Global,
    pub m: &'m Module,
    pub bound: usize,
    pub places: &'p [usize],
}

/// A definition's values, of which those from `index` on are left.
#[derive(Clone, Copy)]
pub struct Left<'v> {
    pub values: &'v [Value],
    pub index: usize,
}

/// What a value says of the end of the bytes that enclose it: from a place on so many are left. With its path.
#[derive(Drop)]
pub struct Claim {
    pub place: usize,
    pub left: u64,
    pub path: Vec<usize>,
}

/// What is written of a value.
#[derive(Drop)]
pub struct Draft {
    /// Where the walk is: in each list on the way the number of the value, from 0, the outermost first. After a fault, where
    /// that is.
    pub path: Vec<usize>,
    /// The bytes so far.
    pub out: Vec<u8>,
    /// What was said of ends that aren't known yet, in order.
    pub claims: Vec<Claim>,
}
