//! The lines that go to the error stream.

ghost use Rattle.td_io.specs.States.{Writes};
ghost use Rattle.td_cli.specs.Lines.{job_line, module_line, refusal_line};

use td_cli_input::refusal::Refusal;
use td_front::{FrontError, line_of};
use td_io::{Sink, WriteFault};
use td_job::error::{JobError, PathParts};
use td_report::error_line::front_line;
use td_report::path_line::{inner_path_line, path_line, value_line};

/// Says what a command line may be.
pub(crate) const USAGE: &[u8] = b"usage: td check|tidy|code|run|host|pack|bench N\n";

/// Says that a read failed.
pub(crate) const READ: &[u8] = b"error read\n";

/// Says that there was no memory.
pub(crate) const MEMORY: &[u8] = b"error memory\n";

// That there was no memory has no line of a place, and is never held by a refusal.
fn write_module_line<E: Sink>(
    input: &[u8],
    error: &FrontError,
    err: &mut E,
) -> Result<(), WriteFault>
    ensures { Writes (E.state err.old) (E.state err.new) (module_line input.now error.now) result }
{
    let Some(line) = line_of(error) else {
        return front_line(input, Some(0), b"", b"", err);
    };
    front_line(
        input,
        Some(line.at),
        line.code.as_bytes(),
        line.words.as_bytes(),
        err,
    )
}

fn write_job_line<E: Sink>(error: &JobError, err: &mut E) -> Result<(), WriteFault>
    ensures { Writes (E.state err.old) (E.state err.new) (job_line error.now) result }
{
    match error.path() {
        PathParts::Name { name, index } => path_line(error.code(), name, index, err),
        PathParts::Within {
            element,
            name,
            index,
        } => inner_path_line(error.code(), element.list, element.place, name, index, err),
        PathParts::Inside { name, places, code } => {
            value_line(error.code(), name, places, code, err)
        }
    }
}

/// Writes the line that refuses an input: `error`, a code, for a module text the line and the column at which it is
/// refused, and words; for a job the path. Takes no memory.
///
/// `WriteFault`: a write failed. What went out is a prefix of the line.
pub(crate) fn write_refusal<E: Sink>(
    input: &[u8],
    refusal: &Refusal,
    err: &mut E,
) -> Result<(), WriteFault>
    ensures { Writes (E.state err.old) (E.state err.new) (refusal_line input.now refusal.now) result }
{
    match refusal {
        Refusal::TooLong => front_line(&[], None, b"Z1", b"input too long", err),
        Refusal::NoJob => front_line(&[], None, b"Z2", b"no job", err),
        Refusal::BadModule(error) => write_module_line(input, error, err),
        Refusal::BadJob(error) => write_job_line(error, err),
        Refusal::NoRing => front_line(&[], None, b"Z3", b"no ring", err),
    }
}
