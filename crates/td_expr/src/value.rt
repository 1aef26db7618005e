//! Comparisons and shifts in 64 bits.

ghost use Rattle.std.specs.Prelude.{◌≡◌, ◌^◌, ◌*◌, ◌/◌, ◌%◌, pos};
ghost use Rattle.td_core.specs.Types.{limit};
ghost use Rattle.td_expr.specs.Value.{related};

use crate::types::greatest_of;
use td_core::expressions::{Relation, Scalar};

/// Whether two numbers compare so.
pub fn compare(relation: Relation, left: u64, right: u64) -> bool
    ensures { result ≡ related relation (pos left) (pos right) }
{
    match relation {
        Relation::Equal => left == right,
        Relation::NotEqual => left != right,
        Relation::Less => left < right,
        Relation::LessEqual => left <= right,
        Relation::Greater => right < left,
        Relation::GreaterEqual => right <= left,
    }
}

/// A number shifted to the left by an amount, less the bits past the width of its type.
pub fn shift_left(scalar: Scalar, value: u64, amount: u64) -> u64
    ensures { result ≡ (value * 2 ^ amount) % limit scalar }
{
    if amount < 64 {
        (value << amount) & greatest_of(scalar)
    } else {
        0
    }
}

/// A number shifted to the right by an amount.
pub fn shift_right(value: u64, amount: u64) -> u64
    ensures { result ≡ value / 2 ^ amount }
{
    if amount < 64 { value >> amount } else { 0 }
}
