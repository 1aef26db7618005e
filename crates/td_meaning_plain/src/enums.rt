//! Numbers that must be among the values of an enum.

ghost use Rattle.std.specs.Prelude.{◌≡◌, ℕ, List, []};
ghost use Rattle.td_core.specs.Outcome.{Ending};
ghost use Rattle.td_meaning.specs.Words64.{listed_meaning};
ghost use Rattle.td_meaning.specs.Verdicts.{ending_of};

use crate::numbers::{number_at, place_after};
use td_core::outcome::{Reason, Verdict};
use td_meaning::checking::demand;
use td_meaning::enums::is_among;
use td_num::number::{NumberType, byte_count};

/// A number, of a field that began at `start`, that must be among some values.
pub(crate) fn listed_number(
    base: NumberType,
    values: &[u64],
    message: &[u8],
    start: u32,
    end: u32,
    pos: u32,
) -> Verdict
    ensures ending { (cells : List ℕ)
        → (listed_meaning base values.now message.now start end pos cells).ending ≡ ending_of result [] cells }
{
    match place_after(pos, byte_count(base.width) as u64, end) {
        Some(stop) => demand(
            is_among(values, number_at(base, message, pos)),
            Reason::Constraint,
            start,
            stop,
        ),
        None => Verdict::Reject {
            reason: Reason::NotEnough,
            pos: start,
        },
    }
}
