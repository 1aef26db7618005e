//! `all_zeros`.

ghost use Rattle.std.specs.Prelude.{◌≡◌, ℕ, ◌≤◌, List, []};
ghost use Rattle.td_core.specs.Outcome.{Ending};
ghost use Rattle.td_meaning.specs.Meaning.{zeros_meaning};
ghost use Rattle.td_meaning.specs.Verdicts.{ending_of};

use crate::numbers::byte_at;
use td_core::outcome::{Reason, Verdict};

/// Bytes up to the end, each of them 0.
pub fn zeros(message: &[u8], end: u32, pos: u32) -> Verdict
    ensures ending { (cells : List ℕ) → (zeros_meaning message.now end pos cells).ending ≡ ending_of result [] cells }
{
    let count = end.saturating_sub(pos);
    for turn in 0..count {
        if byte_at(message, (pos + turn) as u64) != 0 {
            return Verdict::Reject {
                reason: Reason::Padding,
                pos: pos + turn,
            };
        }
    }
    Verdict::Accept { pos: end }
}
