//! Numbers in fields of their own, and bytes that are passed over.

ghost use Rattle.std.specs.Prelude.{◌≡◌, ◌<◌, ◌-◌, ℕ, ◌∷◌, List, [], IfOk, OnErr, length};
ghost use Rattle.td_num.specs.Numbers.{bytes_in};
ghost use Rattle.td_core.specs.declared.module.Element.TheVariants as element;
ghost use Rattle.td_core.specs.declared.module.Extent.TheVariants as extent;
ghost use Rattle.td_core.specs.Outcome.{plain, and_then};
ghost use Rattle.td_meaning.specs.Words64.{fields_meaning};
ghost use Rattle.td_meaning.specs.Meaning.{Sense, taken};
ghost use Rattle.td_meaning.specs.Naming.{is_needed};
ghost use Rattle.td_meaning.specs.Verdicts.{ending_of, IsAt};
ghost use Rattle.td_stream.specs.StreamInvariant.{IsStream, Later, loads_of, layout_of, position, end_of};
ghost use Rattle.td_stream.specs.Loads.{Carries};
ghost use Rattle.td_direct.specs.Validates.{Reads, rest_meaning};

use crate::counting::Content;
use std::alloc::AllocError;
use td_core::module::{Field, NameId};
use td_core::outcome::{Reason, Spot, Trace, Verdict};
use td_meaning::checking::framed;
use td_meaning::needed::first_name;
use td_num::number::{NumberType, byte_count};
use td_stream::stream::Stream;
use td_stream::words::Words;

/// Passes over bytes of a field that began at `start`. They must stand before the end.
pub fn pass<W: Words>(count: u32, start: u32, stream: &mut Stream<W>) -> Verdict
    requires whole { IsStream W.loads W.size stream.old }
    ensures later { Later W.loads W.reaches stream.old stream.new }
    ensures whole { IsStream W.loads W.size stream.new }
    ensures end { end_of stream.new ≡ end_of stream.old }
    ensures at { IsAt result (position stream.new) [] }
    ensures step { (cells : List ℕ) → Reads W.loads stream.old stream.new
        (taken count start (end_of stream.old) (position stream.old) cells) (plain (ending_of result [] cells)) }
{
    if !stream.need(count) {
        return Verdict::Reject {
            reason: Reason::NotEnough,
            pos: start,
        };
    }
    stream.skip(count);
    Verdict::Accept { pos: stream.pos() }
}

/// A number in a field of its own, which is read where `read` says so: where it is refined, or named later with the values in
/// scope. `AllocError`: its bytes don't stand before the end, and there was no memory for the frame.
pub(crate) fn validate_number<W: Words>(
    ty: NameId,
    number_type: NumberType,
    field: &Field,
    read: bool,
    trace: &mut Trace,
    stream: &mut Stream<W>,
) -> Result<Content, AllocError>
    requires whole { IsStream W.loads W.size stream.old }
    requires empty_trace { trace.old ≡ [] }
    requires number { field.now.element ≡ element.Number number_type }
    requires once { field.now.extent ≡ extent.Once }
    ensures later { Later W.loads W.reaches stream.old stream.new }
    ensures whole { IsStream W.loads W.size stream.new }
    ensures end { end_of stream.new ≡ end_of stream.old }
    ensures at { IfOk result (λ c. IsAt c.verdict (position stream.new) trace.new) }
    // what is left of the struct decides the whole of it
    ensures step { IfOk result (λ c. (sets : List (List ℕ)) (senses : ℕ → Sense) (later : List Field) (env places b cells : List ℕ)
        → read ≡ is_needed (length env) field.now.parts later
        → Carries (layout_of stream.old) b (loads_of W.loads stream.new)
        → Reads W.loads stream.old stream.new
        (fields_meaning sets senses ty (field.now ∷ later) env places b (end_of stream.old) (position stream.old) cells)
        (and_then (plain (ending_of c.verdict trace.new cells))
        (rest_meaning sets senses ty field.now.parts later env c.value places b (end_of stream.old) (position stream.old)))) }
    // where there was no memory, no word was loaded
    ensures only { OnErr result (stream.new.words.now ≡ stream.old.words.now) }
    // and there are too few bytes
    ensures short { OnErr result (end_of stream.old - position stream.old < bytes_in number_type.width) }
{
    let start = stream.pos();
    let width = byte_count(number_type.width);
    let parts = field.parts.as_slice();
    if !stream.need(width) {
        let verdict = Verdict::Reject {
            reason: Reason::NotEnough,
            pos: start,
        };
        return Ok(Content {
            verdict: framed(verdict, ty, Spot::Field(first_name(parts)), start, trace)?,
            value: 0,
        });
    }
    if !read {
        stream.skip(width);
        return Ok(Content {
            verdict: Verdict::Accept { pos: stream.pos() },
            value: 0,
        });
    }
    let value = stream.take(number_type);
    Ok(Content {
        verdict: Verdict::Accept { pos: stream.pos() },
        value,
    })
}
