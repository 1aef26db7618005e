//! Between which numbers an expression lies. Ends are whole numbers of any size.

ghost use Rattle.std.specs.Prelude.{◌≡◌, ◌≢◌, pos, ◌+ℤ◌, ◌-ℤ◌, ◌*ℤ◌, IfOk, OnErr};
ghost use Rattle.td_expr.specs.Range.{cut, cut_where, whole, computed_range, constant_or, from_to, least, greatest};
ghost use Rattle.td_arith_ranges.specs.Ends.{range_in, spanned};

use std::alloc::{AllocError, Global};
use td_bigint::whole::Whole;
use td_core::expressions::{Binary, Relation, Scalar};
use td_expr::types::greatest_of;

/// The least and the greatest number that an expression can be, both included.
#[derive(Drop)]
pub struct Ends {
    pub low: Whole,
    pub high: Whole,
}

/// All numbers of a type.
pub fn whole(scalar: Scalar) -> Ends
    ensures { range_in result ≡ whole scalar }
{
    up_to(greatest_of(scalar))
}

/// All numbers up to one.
pub fn up_to(most: u64) -> Ends
    ensures { range_in result ≡ from_to (pos 0) (pos most) }
{
    Ends {
        low: Whole::small(0),
        high: Whole::small(i128::from(most)),
    }
}

/// The range of a constant, or else this one.
pub fn constant_or(constant: Option<u64>, ends: Ends) -> Ends
    ensures { range_in result ≡ constant_or constant (range_in ends) }
{
    match constant {
        Some(n) => Ends {
            low: Whole::small(i128::from(n)),
            high: Whole::small(i128::from(n)),
        },
        None => ends,
    }
}

/// What a comparison with a constant leaves. `AllocError`: it isn't `!=`, which leaves all, and there was no memory to
/// compare.
pub fn cut(alloc: Global, relation: Relation, c: u64, ends: Ends) -> Result<Ends, AllocError>
    ensures range { IfOk result (λ e. range_in e ≡ cut relation c (range_in ends)) }
    ensures memory { OnErr result (relation ≢ Relation.NotEqual) }
{
    let bound = i128::from(c);
    match relation {
        Relation::Equal => to(alloc, from(alloc, ends, bound)?, bound),
        Relation::NotEqual => Ok(ends),
        Relation::Less => to(alloc, ends, bound - 1),
        Relation::LessEqual => to(alloc, ends, bound),
        Relation::Greater => from(alloc, ends, bound + 1),
        Relation::GreaterEqual => from(alloc, ends, bound),
    }
}

/// Both ranges, and what lies between them. `AllocError`: there was no memory to compare.
pub fn span(alloc: Global, one: Ends, other: Ends) -> Result<Ends, AllocError>
    ensures { IfOk result (λ e. range_in e ≡ spanned (range_in one) (range_in other)) }
{
    Ok(Ends {
        low: least(alloc, one.low, other.low)?,
        high: greatest(alloc, one.high, other.high)?,
    })
}

/// The range of what an operator computes, of this type. `AllocError`: it isn't `|`, `^` or `<<`, of which only the
/// type is known, and there was no memory for the range.
pub fn computed(
    alloc: Global,
    op: Binary,
    scalar: Scalar,
    a: &Ends,
    b: &Ends,
) -> Result<Ends, AllocError>
    ensures range { IfOk result (λ e. range_in e ≡
        computed_range op scalar (range_in a.now) (range_in b.now)) }
    ensures memory { OnErr result ((op ≢ Binary.BitOr) × ((op ≢ Binary.BitXor) × (op ≢ Binary.ShiftLeft))) }
{
    match op {
        Binary::Add => sum(alloc, a, b),
        Binary::Subtract => difference(alloc, a, b),
        Binary::Multiply => product(alloc, a, b),
        Binary::Divide | Binary::ShiftRight => up_to_high(alloc, a),
        Binary::Remainder => remainder(alloc, a, b),
        Binary::BitAnd => common_bits(alloc, a, b),
        Binary::BitOr | Binary::BitXor | Binary::ShiftLeft => Ok(whole(scalar)),
    }
}

fn least(alloc: Global, a: Whole, b: Whole) -> Result<Whole, AllocError>
    ensures { IfOk result (λ w. w ≡ least a b) }
{
    if b.is_below(alloc, &a)? { Ok(b) } else { Ok(a) }
}

fn greatest(alloc: Global, a: Whole, b: Whole) -> Result<Whole, AllocError>
    ensures { IfOk result (λ w. w ≡ greatest a b) }
{
    if b.is_below(alloc, &a)? { Ok(a) } else { Ok(b) }
}

fn from(alloc: Global, ends: Ends, bound: i128) -> Result<Ends, AllocError>
    ensures { IfOk result (λ e. range_in e ≡ from_to (greatest ends.low bound) ends.high) }
{
    Ok(Ends {
        low: greatest(alloc, ends.low, Whole::small(bound))?,
        high: ends.high,
    })
}

fn to(alloc: Global, ends: Ends, bound: i128) -> Result<Ends, AllocError>
    ensures { IfOk result (λ e. range_in e ≡ from_to ends.low (least ends.high bound)) }
{
    Ok(Ends {
        low: ends.low,
        high: least(alloc, ends.high, Whole::small(bound))?,
    })
}

fn sum(alloc: Global, a: &Ends, b: &Ends) -> Result<Ends, AllocError>
    ensures { IfOk result (λ e. range_in e ≡
        from_to (a.now.low +ℤ b.now.low) (a.now.high +ℤ b.now.high)) }
{
    Ok(Ends {
        low: a.low.plus(alloc, &b.low)?,
        high: a.high.plus(alloc, &b.high)?,
    })
}

/// A difference is at least 0 where it is admitted.
fn difference(alloc: Global, a: &Ends, b: &Ends) -> Result<Ends, AllocError>
    ensures { IfOk result (λ e. range_in e ≡
        from_to (greatest (pos 0) (a.now.low -ℤ b.now.high)) (a.now.high -ℤ b.now.low)) }
{
    let low = a.low.minus(alloc, &b.high)?;
    Ok(Ends {
        low: greatest(alloc, Whole::small(0), low)?,
        high: a.high.minus(alloc, &b.low)?,
    })
}

fn product(alloc: Global, a: &Ends, b: &Ends) -> Result<Ends, AllocError>
    ensures { IfOk result (λ e. range_in e ≡
        from_to (a.now.low *ℤ b.now.low) (a.now.high *ℤ b.now.high)) }
{
    Ok(Ends {
        low: a.low.times(alloc, &b.low)?,
        high: a.high.times(alloc, &b.high)?,
    })
}

fn up_to_high(alloc: Global, a: &Ends) -> Result<Ends, AllocError>
    ensures { IfOk result (λ e. range_in e ≡ from_to (pos 0) a.now.high) }
{
    Ok(Ends {
        low: Whole::small(0),
        high: a.high.copy(alloc)?,
    })
}

fn remainder(alloc: Global, a: &Ends, b: &Ends) -> Result<Ends, AllocError>
    ensures { IfOk result (λ e. range_in e ≡ from_to (pos 0) (least a.now.high (b.now.high -ℤ pos 1))) }
{
    let below = b.high.minus(alloc, &Whole::small(1))?;
    Ok(Ends {
        low: Whole::small(0),
        high: least(alloc, a.high.copy(alloc)?, below)?,
    })
}

fn common_bits(alloc: Global, a: &Ends, b: &Ends) -> Result<Ends, AllocError>
    ensures { IfOk result (λ e. range_in e ≡ from_to (pos 0) (least a.now.high b.now.high)) }
{
    Ok(Ends {
        low: Whole::small(0),
        high: least(alloc, a.high.copy(alloc)?, b.high.copy(alloc)?)?,
    })
}
