//! Kinds, and how they are put together. Sizes are numbers of bytes.

ghost use Rattle.std.specs.Prelude.{◌≡◌, ◌+◌, max};
ghost use Rattle.td_kinds.specs.Kinds.{exactly, at_least, all_left, up_to, on_both, joined, spanned, sized_kind, constant_size};

use td_core::kind::Kind;

/// Past so many bytes a least size counts as just so many, and a greatest size as none.
pub const SIZE_CAP: u64 = 4_294_967_296;

/// Values of one size.
pub fn exactly(size: u64) -> Kind
    ensures { result ≡ exactly size }
{
    Kind {
        least: size,
        most: Some(size),
        rest: false,
    }
}

/// Values of any size from a least one on.
pub(crate) fn at_least(size: u64) -> Kind
    ensures { result ≡ at_least size }
{
    Kind {
        least: size,
        most: None,
        rest: false,
    }
}

/// Values that take all bytes up to the end.
pub(crate) fn all_left() -> Kind
    ensures { result ≡ all_left }
{
    Kind {
        least: 0,
        most: None,
        rest: true,
    }
}

/// One value and then another.
pub fn joined(first: Kind, second: Kind) -> Kind
    ensures { result ≡ joined first second }
{
    Kind {
        least: (first.least.min(SIZE_CAP) + second.least.min(SIZE_CAP)).min(SIZE_CAP),
        most: capped_sum(first.most, second.most),
        rest: second.rest,
    }
}

/// The sum of two greatest sizes.
fn capped_sum(first: Option<u64>, second: Option<u64>) -> Option<u64>
    ensures { result ≡ up_to SIZE_CAP (on_both (λ x y. x + y) first second) }
{
    match (first, second) {
        (Some(a), Some(b)) => if a <= SIZE_CAP && b <= SIZE_CAP - a {
            Some(a + b)
        } else {
            None
        },
        _ => None,
    }
}

/// One value or another.
pub fn spanned(one: Kind, other: Kind) -> Kind
    ensures { result ≡ spanned one other }
{
    Kind {
        least: one.least.min(other.least),
        most: greater(one.most, other.most),
        rest: one.rest || other.rest,
    }
}

/// The greater of two greatest sizes.
fn greater(one: Option<u64>, other: Option<u64>) -> Option<u64>
    ensures { result ≡ on_both max one other }
{
    match (one, other) {
        (Some(a), Some(b)) => Some(a.max(b)),
        _ => None,
    }
}

/// An array by its size, where that is constant.
pub fn sized(size: Option<u64>) -> Kind
    ensures { result ≡ sized_kind size }
{
    match size {
        Some(n) => Kind {
            least: n.min(SIZE_CAP),
            most: if n <= SIZE_CAP { Some(n) } else { None },
            rest: false,
        },
        None => at_least(0),
    }
}

/// The size that all values of a kind have, where they all have one.
pub fn constant_size(kind: Kind) -> Option<u64>
    ensures { result ≡ constant_size kind }
{
    match kind.most {
        Some(most) => if kind.least == most { Some(most) } else { None },
        None => None,
    }
}
