//! The line that tells what an accepted module has.

ghost use Rattle.std.specs.Prelude.{◌≡◌};
ghost use Rattle.td_io.specs.States.{Writes};
ghost use Rattle.td_report.specs.Summary.{summary};

use crate::pieces::write_pieces;
use itoa::Buffer;
use td_core::module::Module;
use td_io::{Sink, WriteFault};

/// Writes `ok definitions D entries E` and a line feed: how many definitions the module's text has, and how many entry
/// points. Takes no memory.
///
/// `WriteFault`: a write failed. What went out is a prefix of the line.
#[tactic(auto, unfolding(crate::specs::Summary::summary))]
pub fn module_summary<O: Sink>(m: &Module, out: &mut O) -> Result<(), WriteFault>
    ensures { Writes (O.state out.old) (O.state out.new) (summary m.now) result }
{
    let mut definitions = Buffer::new();
    let mut entries = Buffer::new();
    let definitions = definitions.format(m.written).as_bytes();
    let entries = entries.format(m.entries.len()).as_bytes();
    write_pieces(
        out,
        &[
            b"ok definitions ",
            definitions,
            b" entries ",
            entries,
            b"\n",
        ],
    )
}
