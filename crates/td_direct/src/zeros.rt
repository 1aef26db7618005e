//! `all_zeros`.

ghost use Rattle.std.specs.Prelude.{◌≡◌, ℕ, List, []};
ghost use Rattle.td_core.specs.Outcome.{plain};
ghost use Rattle.td_meaning.specs.Meaning.{zeros_meaning};
ghost use Rattle.td_meaning.specs.Verdicts.{ending_of, IsAt};
ghost use Rattle.td_stream.specs.StreamInvariant.{IsStream, Later, loads_of, layout_of, position, end_of};
ghost use Rattle.td_stream.specs.Loads.{Carries};
ghost use Rattle.td_direct.specs.Validates.{Reads};

use td_core::outcome::{Reason, Verdict};
use td_stream::stream::Stream;
use td_stream::words::Words;

/// All bytes up to the end, each of them 0.
pub(crate) fn validate_zeros<W: Words>(stream: &mut Stream<W>) -> Verdict
    requires whole { IsStream W.loads W.size stream.old }
    ensures later { Later W.loads W.reaches stream.old stream.new }
    ensures whole { IsStream W.loads W.size stream.new }
    ensures end { end_of stream.new ≡ end_of stream.old }
    ensures at { IsAt result (position stream.new) [] }
    ensures step { (b cells : List ℕ) → Carries (layout_of stream.old) b (loads_of W.loads stream.new)
        → Reads W.loads stream.old stream.new
        (zeros_meaning b (end_of stream.old) (position stream.old) cells)
        (plain (ending_of result [] cells)) }
{
    let count = stream.end() - stream.pos();
    for turn in 0..count {
        let pos = stream.pos();
        if stream.byte() != 0 {
            return Verdict::Reject {
                reason: Reason::Padding,
                pos,
            };
        }
    }
    Verdict::Accept { pos: stream.pos() }
}
