//! Fields without bytes.

ghost use Rattle.std.specs.Prelude.{◌≤◌, length, List, ℕ, IfOk, IfErr};
ghost use Rattle.td_write_values.specs.Writing.{left_written, source_written, given_written};
ghost use Rattle.td_write_values.specs.declared.limits.TheConstants.{MOST_WRITTEN};
ghost use Rattle.td_write.specs.Writes.{Wrote, Halts, claims_of};

use crate::claims::claim;
use crate::halt::Halt;
use crate::leaves::write_unit;
use crate::numbers::{fits, number_of};
use crate::parts::want;
use crate::walk::Draft;
use std::alloc::Global;
use td_core::module::{Element, Source};
use td_num::number::NumberType;
use td_write_values::error::WriteRule;
use td_write_values::value::Value;

// How many bytes are left.
fn write_left(
    alloc: Global,
    number_type: NumberType,
    value: &Value,
    draft: &mut Draft,
) -> Result<(), Halt>
    requires { length draft.old.out.items ≤ MOST_WRITTEN }
    ensures ok { IfOk result (λ _. (cells : List ℕ) → Wrote
        (left_written number_type draft.old.path.items (length draft.old.out.items) cells value.now)
        draft.old.out.items draft.new.out.items draft.old.path.items draft.new.path.items cells (claims_of draft.old.claims.items) (claims_of draft.new.claims.items)) }
    ensures err { IfErr result (λ h. (cells : List ℕ) → Halts h draft.new.path.items
        (left_written number_type draft.old.path.items (length draft.old.out.items) cells value.now)) }
{
    let left = number_of(value)?;
    want(fits(number_type, None, left), WriteRule::Range)?;
    claim(alloc, left, draft)
}

// What a number without bytes comes from: only of how many bytes are left the value says a number.
fn write_source(
    alloc: Global,
    number_type: NumberType,
    source: &Source,
    value: &Value,
    draft: &mut Draft,
) -> Result<(), Halt>
    requires { length draft.old.out.items ≤ MOST_WRITTEN }
    ensures ok { IfOk result (λ _. (cells : List ℕ) → Wrote
        (source_written number_type source.now draft.old.path.items (length draft.old.out.items) cells value.now)
        draft.old.out.items draft.new.out.items draft.old.path.items draft.new.path.items cells (claims_of draft.old.claims.items) (claims_of draft.new.claims.items)) }
    ensures err { IfErr result (λ h. (cells : List ℕ) → Halts h draft.new.path.items
        (source_written number_type source.now draft.old.path.items (length draft.old.out.items) cells value.now)) }
{
    match source {
        Source::Expression { .. } => write_unit(value),
        Source::Cell(_) => write_unit(value),
        Source::Left => write_left(alloc, number_type, value, draft),
    }
}

/// A field without bytes. Only numbers stand so.
pub(crate) fn write_given(
    alloc: Global,
    element: &Element,
    source: &Source,
    value: &Value,
    draft: &mut Draft,
) -> Result<(), Halt>
    requires { length draft.old.out.items ≤ MOST_WRITTEN }
    ensures ok { IfOk result (λ _. (cells : List ℕ) → Wrote
        (given_written element.now source.now draft.old.path.items (length draft.old.out.items) cells value.now)
        draft.old.out.items draft.new.out.items draft.old.path.items draft.new.path.items cells (claims_of draft.old.claims.items) (claims_of draft.new.claims.items)) }
    ensures err { IfErr result (λ h. (cells : List ℕ) → Halts h draft.new.path.items
        (given_written element.now source.now draft.old.path.items (length draft.old.out.items) cells value.now)) }
{
    match element {
        Element::Number(number_type) => write_source(alloc, *number_type, source, value, draft),
        Element::Listed { .. } => Err(Halt::Broken(WriteRule::Shape)),
        Element::Named { .. } => Err(Halt::Broken(WriteRule::Shape)),
        Element::Unit => Err(Halt::Broken(WriteRule::Shape)),
        Element::Rest => Err(Halt::Broken(WriteRule::Shape)),
        Element::Zeros => Err(Halt::Broken(WriteRule::Shape)),
    }
}
