//! Arrays up to a zero.

ghost use Rattle.std.specs.Prelude.{◌≡◌, ℕ, List, []};
ghost use Rattle.td_core.specs.Outcome.{Ending};
ghost use Rattle.td_meaning.specs.Meaning.{up_to_zero, element_up_to_zero};
ghost use Rattle.td_meaning.specs.Verdicts.{ending_of};

use crate::numbers::number_at;
use td_core::module::Element;
use td_core::outcome::{Reason, Verdict};
use td_meaning::arrays::missing;
use td_num::number::{NumberType, byte_count};

/// An element that doesn't fit its place.
pub fn unfit(start: u32) -> Verdict
    ensures { result ≡ Verdict.Reject Reason.ListSize start }
{
    Verdict::Reject {
        reason: Reason::ListSize,
        pos: start,
    }
}

/// Numbers up to and with the first 0, within `size` bytes.
pub(crate) fn numbers_up_to_zero(
    number_type: NumberType,
    size: u64,
    message: &[u8],
    end: u32,
    start: u32,
) -> Verdict
    ensures ending { (cells : List ℕ)
        → (up_to_zero number_type size message.now end start cells).ending ≡ ending_of result [] cells }
{
    let width = byte_count(number_type.width);
    let bound = size / width as u64;
    let room = (end.saturating_sub(start) / width) as u64;
    let reason = missing(bound, room);
    let mut pos = start;
    for turn in 0..bound.min(room) {
        if number_at(number_type, message, pos) == 0 {
            return Verdict::Accept { pos: pos + width };
        }
        pos += width;
    }
    Verdict::Reject { reason, pos: start }
}

/// Elements up to and with the first 0, within `size` bytes. Only numbers stand so.
pub fn up_to_zero(element: &Element, size: u64, message: &[u8], end: u32, start: u32) -> Verdict
    ensures ending { (cells : List ℕ)
        → (element_up_to_zero element.now size message.now end start cells).ending ≡ ending_of result [] cells }
{
    match element {
        Element::Number(number_type) => numbers_up_to_zero(*number_type, size, message, end, start),
        Element::Listed { .. } => unfit(start),
        Element::Named { .. } => unfit(start),
        Element::Unit => unfit(start),
        Element::Rest => unfit(start),
        Element::Zeros => unfit(start),
    }
}
