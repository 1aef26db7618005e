//! The lines that go to the error stream.

ghost use Rattle.td_io.specs.States.{Writes};
ghost use Rattle.td_c_ends.specs.Lines.{module_line, refusal_line};

use crate::refusal::Refusal;
use td_front::{FrontError, line_of};
use td_io::{Sink, WriteFault};
use td_report::error_line::front_line;

/// Says what a command line may be.
pub(crate) const USAGE: &[u8] = b"usage: tdc c|header|parts NAME\n";

/// Says that a read failed.
pub(crate) const READ: &[u8] = b"error read\n";

/// Says that there was no memory.
pub(crate) const MEMORY: &[u8] = b"error memory\n";

// That there was no memory has no line of a place, and is never held by a refusal.
fn write_module_line<E: Sink>(
    input: &[u8],
    error: &FrontError,
    err: &mut E,
) -> Result<(), WriteFault>
    ensures { Writes (E.state err.old) (E.state err.new) (module_line input.now error.now) result }
{
    let Some(line) = line_of(error) else {
        return front_line(input, Some(0), b"", b"", err);
    };
    front_line(
        input,
        Some(line.at),
        line.code.as_bytes(),
        line.words.as_bytes(),
        err,
    )
}

/// Writes the line that refuses a name or an input: `error`, a code, for a module text the line and the column at which it
/// is refused, and words. Takes no memory.
///
/// `WriteFault`: a write failed. What went out is a prefix of the line.
pub(crate) fn write_refusal<E: Sink>(
    input: &[u8],
    refusal: &Refusal,
    err: &mut E,
) -> Result<(), WriteFault>
    ensures { Writes (E.state err.old) (E.state err.new) (refusal_line input.now refusal.now) result }
{
    match refusal {
        Refusal::BadName => front_line(&[], None, b"Z4", b"no name of C", err),
        Refusal::TooLong => front_line(&[], None, b"Z1", b"input too long", err),
        Refusal::BadModule(error) => write_module_line(input, error, err),
        Refusal::NoEntry => front_line(&[], None, b"Z5", b"no entry point", err),
    }
}
