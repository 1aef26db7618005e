//! Fields without bytes: what their expressions may give, and what is known of it.

ghost use Rattle.std.specs.Prelude.{◌≡◌, ◌++◌, None, Some, pos, int_lt, IfOk, OnOk};
ghost use Rattle.td_core.specs.Formed.{scalar_of, part_bound};
ghost use Rattle.td_expr.specs.Safe.{first};
ghost use Rattle.td_arith_ranges.specs.Ends.{within};
ghost use Rattle.td_arith.specs.Known.{facts_in};
ghost use Rattle.td_arith.specs.SafeModule.{value_unsafe, source_unsafe, source_range, extent_unsafe, given_range};

use crate::comparisons::Known;
use crate::expressions::first_of;
use crate::walk::{Seen, expression_unsafe, look_at_value};
use std::alloc::{AllocError, Global};
use td_arith_ranges::within::within;
use td_ast::token::Span;
use td_bigint::whole::Whole;
use td_core::expressions::Scalar;
use td_core::module::{Element, Extent, Source};
use td_expr::safety::Unsafe;
use td_expr::types::greatest_of;
use td_num::number::Width;

/// What is known of a number that an expression gives to a field: the field's type, the greatest number that the field can be,
/// and the ends of the expression's range, where they are numbers up to that one.
#[derive(Clone, Copy)]
pub struct ValueRange {
    pub scalar: Scalar,
    pub most: u64,
    pub low: Option<u64>,
    pub high: Option<u64>,
}

/// What a look at an array's size, or at what gives a value, tells: what isn't safe first, and what is known of the value.
#[derive(Clone, Copy)]
pub(crate) struct Told {
    pub(crate) unsafe_at: Option<Unsafe>,
    pub(crate) range: Option<ValueRange>,
}

/// The type of a number of this width.
fn scalar_of(width: Width) -> Scalar
    ensures { result ≡ scalar_of width }
{
    match width {
        Width::One => Scalar::Eight,
        Width::Two => Scalar::Sixteen,
        Width::Four => Scalar::ThirtyTwo,
        Width::Eight => Scalar::SixtyFour,
    }
}

/// The type of the number that a field brings into scope, and the greatest that it can be.
fn bound_of(element: &Element, extent: &Extent) -> (Scalar, u64)
    ensures scalar { result.0 ≡ (part_bound element.now extent.now None).type }
    ensures most { result.1 ≡ (part_bound element.now extent.now None).most }
{
    let scalar = match (element, extent) {
        (Element::Number(number), Extent::Once | Extent::Given(_)) => scalar_of(number.width),
        (Element::Listed { base, .. }, Extent::Once) => scalar_of(base.width),
        _ => return (Scalar::SixtyFour, 0),
    };
    (scalar, greatest_of(scalar))
}

/// A value as a finding, where it may pass what its field can be.
fn value_of(span: Span, passes: bool) -> Option<Unsafe>
    ensures { result ≡ value_unsafe span passes }
{
    if passes {
        Some(Unsafe::Value { span })
    } else {
        None
    }
}

/// What a look at an expression tells of the field that it gives a value.
fn told_of(
    alloc: Global,
    scalar: Scalar,
    most: u64,
    span: Span,
    seen: &Seen,
) -> Result<Told, AllocError>
    ensures first { IfOk result (λ t. t.unsafe_at ≡ first (value_unsafe span (int_lt (pos most) seen.now.ends.high)) seen.now.unsafe_at) }
    ensures range { IfOk result (λ t. t.range ≡ Some (record { scalar = scalar; most = most; low = within most seen.now.ends.low; high = within most seen.now.ends.high })) }
{
    let passes = Whole::small(i128::from(most)).is_below(alloc, &seen.ends.high)?;
    let low = within(alloc, most, &seen.ends.low)?;
    let high = within(alloc, most, &seen.ends.high)?;
    Ok(Told {
        unsafe_at: first_of(value_of(span, passes), seen.unsafe_at),
        range: Some(ValueRange {
            scalar,
            most,
            low,
            high,
        }),
    })
}

/// What gives a value to a field of this type, up to the greatest number that it can be. On `Ok` what is known is as before.
fn look_at_source<'a>(
    alloc: Global,
    scalar: Scalar,
    most: u64,
    source: &'a Source,
    known: &mut Vec<Known<'a>>,
) -> Result<Told, AllocError>
    ensures first { IfOk result (λ t. t.unsafe_at ≡ source_unsafe (facts_in known.old.items) most source.now) }
    ensures range { IfOk result (λ t. t.range ≡ source_range (facts_in known.old.items) (record { type = scalar; most = most }) source.now) }
    ensures same { OnOk result (known.new.items ≡ known.old.items) }
{
    match source {
        Source::Expression { span, value } => {
            let seen = look_at_value(alloc, value, known)?;
            let told = told_of(alloc, scalar, most, *span, &seen);
            drop(seen);
            told
        }
        Source::Cell(_) | Source::Left => Ok(Told {
            unsafe_at: None,
            range: None,
        }),
    }
}

/// The size of an array, or what gives a value. On `Ok` what is known is as before.
pub(crate) fn look_at_extent<'a>(
    alloc: Global,
    element: &Element,
    extent: &'a Extent,
    known: &mut Vec<Known<'a>>,
) -> Result<Told, AllocError>
    ensures first { IfOk result (λ t. t.unsafe_at ≡ extent_unsafe (facts_in known.old.items) element.now extent.now) }
    ensures range { IfOk result (λ t. t.range ≡ given_range (facts_in known.old.items) element.now extent.now) }
    ensures same { OnOk result (known.new.items ≡ known.old.items) }
{
    match extent {
        Extent::Once => Ok(Told {
            unsafe_at: None,
            range: None,
        }),
        Extent::Filling { size, .. }
        | Extent::OnceFilling { size, .. }
        | Extent::UpToZero { size } => Ok(Told {
            unsafe_at: expression_unsafe(alloc, size, known)?,
            range: None,
        }),
        Extent::Given(source) => {
            let (scalar, most) = bound_of(element, extent);
            look_at_source(alloc, scalar, most, source, known)
        }
    }
}
