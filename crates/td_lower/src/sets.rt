//! Sets of the values of enums.

ghost use Rattle.std.specs.Prelude.{◌≡◌, IfOk};
ghost use Rattle.td_lower.specs.Sets.{IsSetOf, AreSetsOf, once};

use std::alloc::{AllocError, Global};
use td_num::items::Items;

// The last of each that are equal, of numbers in order.
fn once(alloc: Global, sorted: &[u64]) -> Result<Items<u64>, AllocError>
    ensures { IfOk result (λ set. set ≡ once sorted.now) }
{
    let mut set = Items::new(alloc);
    for at in 0..sorted.len() {
        if at + 1 == sorted.len() || sorted[at] != sorted[at + 1] {
            set.push(sorted[at])?;
        }
    }
    Ok(set)
}

// The same numbers, each once, in order.
fn rising(alloc: Global, values: &[u64]) -> Result<Items<u64>, AllocError>
    ensures { IfOk result (λ set. IsSetOf values.now set) }
{
    let mut sorted = Vec::from_slice(alloc, values)?;
    sorted.sort_unstable();
    let set = once(alloc, &sorted)?;
    Ok(set)
}

/// The set of each enum. `AllocError`: there was no memory for it.
pub fn sets_of(alloc: Global, listed: &[Items<u64>]) -> Result<Items<Items<u64>>, AllocError>
    ensures { IfOk result (λ sets. AreSetsOf listed.now sets) }
{
    let mut sets = Items::new(alloc);
    for values in listed {
        let set = rising(alloc, values.as_slice())?;
        sets.push(set)?;
    }
    Ok(sets)
}
