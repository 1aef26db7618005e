//! Numbers that must be among the values of an enum.

ghost use Rattle.std.specs.Prelude.{◌≡◌, ◌<◌, ◌-◌, ◌⊎◌, ℕ, ◌∷◌, List, [], IfOk, OnErr, false};
ghost use Rattle.td_num.specs.Numbers.{bytes_in, number_at};
ghost use Rattle.td_num.specs.Lists.{is_among};
ghost use Rattle.td_core.specs.declared.module.Element.TheVariants as element;
ghost use Rattle.td_core.specs.declared.module.Extent.TheVariants as extent;
ghost use Rattle.td_core.specs.Outcome.{plain, and_then};
ghost use Rattle.td_meaning.specs.Words64.{fields_meaning, listed_meaning};
ghost use Rattle.td_meaning.specs.Meaning.{Sense, values_of};
ghost use Rattle.td_meaning.specs.Verdicts.{ending_of, IsAt};
ghost use Rattle.td_stream.specs.StreamInvariant.{IsStream, Later, loads_of, layout_of, position, end_of};
ghost use Rattle.td_stream.specs.Loads.{Carries};
ghost use Rattle.td_direct.specs.Validates.{Reads, OnlyRead, rest_meaning};

use crate::counting::Content;
use std::alloc::AllocError;
use td_core::module::{Field, NameId};
use td_core::outcome::{Reason, Spot, Trace, Verdict};
use td_meaning::checking::{demand, framed};
use td_meaning::enums::{is_among, values_at};
use td_meaning::needed::first_name;
use td_num::items::Items;
use td_num::number::{NumberType, byte_count};
use td_stream::stream::Stream;
use td_stream::words::Words;

/// A number, of a field that began at `start`, that must be among some values. It is always read.
pub(crate) fn validate_listed<W: Words>(
    base: NumberType,
    values: &[u64],
    start: u32,
    stream: &mut Stream<W>,
) -> Content
    requires whole { IsStream W.loads W.size stream.old }
    ensures later { Later W.loads W.reaches stream.old stream.new }
    ensures whole { IsStream W.loads W.size stream.new }
    ensures end { end_of stream.new ≡ end_of stream.old }
    ensures at { IsAt result.verdict (position stream.new) [] }
    ensures step { (b cells : List ℕ) → Carries (layout_of stream.old) b (loads_of W.loads stream.new)
        → Reads W.loads stream.old stream.new
        (listed_meaning base values.now b start (end_of stream.old) (position stream.old) cells)
        (plain (ending_of result.verdict [] cells)) }
    ensures value { (q : ℕ) → result.verdict ≡ Verdict.Accept q
        → (b : List ℕ) → Carries (layout_of stream.old) b (loads_of W.loads stream.new)
        → result.value ≡ number_at base b (position stream.old) }
{
    if !stream.need(byte_count(base.width)) {
        return Content {
            verdict: Verdict::Reject {
                reason: Reason::NotEnough,
                pos: start,
            },
            value: 0,
        };
    }
    let value = stream.take(base);
    Content {
        verdict: demand(
            is_among(values, value),
            Reason::Constraint,
            start,
            stream.pos(),
        ),
        value,
    }
}

/// A number of an enum in a field of its own. `AllocError`: its bytes don't stand before the end, or it isn't among the
/// values, and there was no memory for the frame.
pub(crate) fn validate_listed_field<W: Words>(
    ty: NameId,
    base: NumberType,
    values: u32,
    listed: &[Items<u64>],
    field: &Field,
    trace: &mut Trace,
    stream: &mut Stream<W>,
) -> Result<Content, AllocError>
    requires whole { IsStream W.loads W.size stream.old }
    requires empty_trace { trace.old ≡ [] }
    requires number { field.now.element ≡ element.Listed base values }
    requires once { field.now.extent ≡ extent.Once }
    ensures later { Later W.loads W.reaches stream.old stream.new }
    ensures whole { IsStream W.loads W.size stream.new }
    ensures end { end_of stream.new ≡ end_of stream.old }
    ensures at { IfOk result (λ c. IsAt c.verdict (position stream.new) trace.new) }
    ensures step { IfOk result (λ c. (senses : ℕ → Sense) (later : List Field) (env places b cells : List ℕ)
        → Carries (layout_of stream.old) b (loads_of W.loads stream.new)
        → Reads W.loads stream.old stream.new
        (fields_meaning listed.now senses ty (field.now ∷ later) env places b (end_of stream.old) (position stream.old) cells)
        (and_then (plain (ending_of c.verdict trace.new cells))
        (rest_meaning listed.now senses ty field.now.parts later env c.value places b (end_of stream.old) (position stream.old)))) }
    ensures only { OnErr result ((senses : ℕ → Sense) (later : List Field) (env places b cells : List ℕ)
        → Carries (layout_of stream.old) b (loads_of W.loads stream.new)
        → OnlyRead W.loads stream.old stream.new
        (fields_meaning listed.now senses ty (field.now ∷ later) env places b (end_of stream.old) (position stream.old) cells)) }
    // and there are too few bytes, or they say another number
    ensures memory { OnErr result ((b : List ℕ) → Carries (layout_of stream.old) b (loads_of W.loads stream.new)
        → (end_of stream.old - position stream.old < bytes_in base.width)
        ⊎ (is_among (values_of listed.now values) (number_at base b (position stream.old)) ≡ false)) }
{
    let start = stream.pos();
    let content = validate_listed(base, values_at(listed, values), start, stream);
    let name = first_name(field.parts.as_slice());
    Ok(Content {
        verdict: framed(content.verdict, ty, Spot::Field(name), start, trace)?,
        value: content.value,
    })
}
