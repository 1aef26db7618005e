//! Sizes of arrays.

ghost use Rattle.std.specs.Prelude.{◌≡◌, cond, nat_le};
ghost use Rattle.td_meaning.specs.Meaning.{divides, equals};

use td_core::outcome::Reason;

/// Whether elements of a constant size fill so many bytes; true where they have none.
pub fn divides(step: Option<u64>, size: u64) -> bool
    ensures { result ≡ divides step size }
{
    match step {
        None => true,
        Some(step) => step == 0 || size % step == 0,
    }
}

/// Whether one element of a constant size fills so many bytes; true where it has none.
pub fn equals(step: Option<u64>, size: u64) -> bool
    ensures { result ≡ equals step size }
{
    match step {
        None => true,
        Some(step) => step == size,
    }
}

/// Why numbers without a 0 among them fail: there is room for `bound` of them in their size, and for `room` before the
/// end.
pub fn missing(bound: u64, room: u64) -> Reason
    ensures { result ≡ cond (nat_le bound room) Reason.Constraint Reason.NotEnough }
{
    if bound <= room {
        Reason::Constraint
    } else {
        Reason::NotEnough
    }
}
