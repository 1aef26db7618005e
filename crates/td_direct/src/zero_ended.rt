//! Arrays up to a zero.

ghost use Rattle.std.specs.Prelude.{◌≡◌, ℕ, ◌-◌, ◌/◌, List, [], cond, nat_le};
ghost use Rattle.td_num.specs.Numbers.{bytes_in};
ghost use Rattle.td_core.specs.Outcome.{plain};
ghost use Rattle.td_meaning.specs.Meaning.{up_to_zero, element_up_to_zero};
ghost use Rattle.td_meaning.specs.Verdicts.{ending_of, IsAt};
ghost use Rattle.td_stream.specs.StreamInvariant.{IsStream, Later, loads_of, layout_of, position, end_of};
ghost use Rattle.td_stream.specs.Loads.{Carries};
ghost use Rattle.td_direct.specs.Validates.{Reads};

use td_core::module::Element;
use td_core::outcome::{Reason, Verdict};
use td_meaning::arrays::missing;
use td_num::number::{NumberType, byte_count};
use td_stream::stream::Stream;
use td_stream::words::Words;

/// An element that doesn't fit its place.
pub fn unfit(start: u32) -> Verdict
    ensures { result ≡ Verdict.Reject Reason.ListSize start }
{
    Verdict::Reject {
        reason: Reason::ListSize,
        pos: start,
    }
}

/// Numbers up to and with the first 0, within `size` bytes.
pub(crate) fn validate_up_to_zero<W: Words>(
    number_type: NumberType,
    size: u64,
    stream: &mut Stream<W>,
) -> Verdict
    requires whole { IsStream W.loads W.size stream.old }
    ensures later { Later W.loads W.reaches stream.old stream.new }
    ensures whole { IsStream W.loads W.size stream.new }
    ensures end { end_of stream.new ≡ end_of stream.old }
    ensures at { IsAt result (position stream.new) [] }
    ensures step { (b cells : List ℕ) → Carries (layout_of stream.old) b (loads_of W.loads stream.new)
        → Reads W.loads stream.old stream.new
        (up_to_zero number_type size b (end_of stream.old) (position stream.old) cells)
        (plain (ending_of result [] cells)) }
{
    let start = stream.pos();
    let width = byte_count(number_type.width);
    let bound = size / width as u64;
    let room = ((stream.end() - start) / width) as u64;
    let reason = missing(bound, room);
    for turn in 0..bound.min(room) {
        let value = stream.take(number_type);
        if value == 0 {
            return Verdict::Accept { pos: stream.pos() };
        }
    }
    Verdict::Reject { reason, pos: start }
}

/// Elements up to and with the first 0, within `size` bytes. Only numbers stand so.
pub(crate) fn validate_zero_ended<W: Words>(
    element: &Element,
    size: u64,
    stream: &mut Stream<W>,
) -> Verdict
    requires whole { IsStream W.loads W.size stream.old }
    ensures later { Later W.loads W.reaches stream.old stream.new }
    ensures whole { IsStream W.loads W.size stream.new }
    ensures end { end_of stream.new ≡ end_of stream.old }
    ensures at { IsAt result (position stream.new) [] }
    ensures step { (b cells : List ℕ) → Carries (layout_of stream.old) b (loads_of W.loads stream.new)
        → Reads W.loads stream.old stream.new
        (element_up_to_zero element.now size b (end_of stream.old) (position stream.old) cells)
        (plain (ending_of result [] cells)) }
{
    match element {
        Element::Number(number_type) => validate_up_to_zero(*number_type, size, stream),
        _ => unfit(stream.pos()),
    }
}
