//! The report of the run that a reply tells of.

ghost use Rattle.td_io.specs.States.{Writes};
ghost use Rattle.td_report_host.specs.Report.{run_by, HasMessageWords};

use td_core::module::{Entry, Module};
use td_io::{Sink, WriteFault};
use td_posts::reply::Reply;
use td_report::outcome::OutcomeParts;
use td_report::report::report_of_parts;

/// Writes the report of the run that a reply tells of, by the names of this module and the cells and copy buffers of this entry point,
/// and its loads by the stretches of its message where it has a list of these.
pub(crate) fn write_run<O: Sink>(
    out: &mut O,
    format: &Module,
    entry: Entry,
    reply: &Reply,
) -> Result<(), WriteFault>
    requires { HasMessageWords reply.now }
    ensures { Writes (O.state out.old) (O.state out.new) (run_by format.now entry reply.now) result }
{
    let outcome = OutcomeParts {
        verdict: reply.verdict,
        trace: reply.trace.as_slice(),
        cells: &reply.cells,
        copies: &reply.copies.buffers,
    };
    report_of_parts(
        &outcome,
        format,
        entry,
        reply.loads.as_slice(),
        reply.layout.as_ref(),
        None,
        out,
    )
}
