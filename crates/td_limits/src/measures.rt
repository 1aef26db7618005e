//! What is known of the names of a text.

/// What a name of a text is.
#[derive(Clone, Copy, PartialEq, Eq)]
pub enum NameSort {
    /// A constant.
    Constant,
    /// A type: an enum, another name, a struct, a casetype, an output record.
    TypeName,
    /// A member of an enum, which is no definition.
    Member,
}

/// How large the definition is that a name of a text stands for.
#[derive(Clone, Copy, PartialEq, Eq)]
pub struct Measure {
    pub sort: NameSort,
    /// How many cells a `mutable` parameter of this type names: one for each slot of an output record, else 1.
    pub cells: u64,
    /// One more than the greatest depth of the definitions that its text names; of a member 0.
    pub depth: u64,
    /// A bound on what its validation takes; of a member 0.
    pub weight: u64,
}
