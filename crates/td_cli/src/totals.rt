//! The lines that tell what the runs of some messages came to.

ghost use Rattle.std.specs.Prelude.{◌≡◌};
ghost use Rattle.td_io.specs.States.{Writes};
ghost use Rattle.td_cli.specs.Totals.{count_line, totals_text};

use itoa::Buffer;
use td_io::{Sink, WriteFault, write_all};

/// Counts and sums over the runs of some messages.
#[derive(Clone, Copy, PartialEq, Eq)]
pub struct Totals {
    /// How many messages were run.
    pub messages: u64,
    /// How many of them were accepted.
    pub accepted: u64,
    /// How many were rejected.
    pub rejected: u64,
    /// The bytes that were accepted: the sum of the places up to which messages were accepted.
    pub bytes: u64,
    /// How many words were loaded.
    pub loads: u64,
}

/// Writes a word, a count in decimal and a line feed.
fn write_count<O: Sink>(word: &[u8], count: u64, out: &mut O) -> Result<(), WriteFault>
    ensures { Writes (O.state out.old) (O.state out.new) (count_line word.now count) result }
{
    let mut digits = Buffer::new();
    write_all(out, word)?;
    write_all(out, digits.format(count).as_bytes())?;
    write_all(out, b"\n")
}

/// Writes `messages N`, `accepted A`, `rejected R`, `bytes B` and `loads L`, each ended by a line feed. Takes no memory.
///
/// `WriteFault`: a write failed. What went out is a prefix of the lines.
pub(crate) fn write_totals<O: Sink>(totals: Totals, out: &mut O) -> Result<(), WriteFault>
    ensures { Writes (O.state out.old) (O.state out.new) (totals_text totals) result }
{
    write_count(b"messages ", totals.messages, out)?;
    write_count(b"accepted ", totals.accepted, out)?;
    write_count(b"rejected ", totals.rejected, out)?;
    write_count(b"bytes ", totals.bytes, out)?;
    write_count(b"loads ", totals.loads, out)
}
