//! Versions.

use td_verify::verify::Verified;

/// How many versions there are at most: the first, and one for each time that it is replaced.
pub const MOST_VERSIONS: usize = 17;

/// A version.
#[derive(Drop)]
pub struct Version {
    /// Its number: how many stand before it in the list.
    pub number: u32,
    /// Its code.
    pub code: Verified,
}
