//! Whole numbers as numbers of the machine.

ghost use Rattle.std.specs.Prelude.{◌≡◌, pos, int_lt, false, IfOk};
ghost use Rattle.td_arith_ranges.specs.Ends.{within};

use std::alloc::{AllocError, Global};
use td_bigint::whole::Whole;

/// A whole number as one of the machine, where it is from 0 to a bound. `AllocError`: there was no memory to compare.
pub fn within(alloc: Global, most: u64, n: &Whole) -> Result<Option<u64>, AllocError>
    ensures { IfOk result (λ o. o ≡ within most n.now) }
{
    if n.is_below(alloc, &Whole::small(0))? {
        return Ok(None);
    }
    if Whole::small(i128::from(most)).is_below(alloc, n)? {
        return Ok(None);
    }
    Ok(Some(found(alloc, most, n)?))
}

/// A number from 0 to a bound, by halves. `AllocError`: there was no memory to compare.
#[tactic(auto, using(crate::proofs::Halving::found_at, crate::proofs::Halving::moved_up))]
fn found(alloc: Global, most: u64, n: &Whole) -> Result<u64, AllocError>
    requires low { int_lt n.now (pos 0) ≡ false }
    requires high { int_lt (pos most) n.now ≡ false }
    ensures { IfOk result (λ m. n.now ≡ pos m) }
{
    let mut low = 0u64;
    let mut high = most;
    while low < high {
        let middle = low + (high - low) / 2;
        if Whole::small(i128::from(middle)).is_below(alloc, n)? {
            low = middle + 1;
        } else {
            high = middle;
        }
    }
    Ok(low)
}
