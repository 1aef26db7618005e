//! How many bytes the values of a type take.

/// The kind of a type (after EverParse's parser kinds): the least number of bytes that a value takes, the greatest where
/// there is one, and whether a value may take all bytes up to the end.
#[derive(Clone, Copy, PartialEq, Eq)]
pub struct Kind {
    pub least: u64,
    pub most: Option<u64>,
    pub rest: bool,
}
