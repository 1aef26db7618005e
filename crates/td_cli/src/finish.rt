//! How a call ends once all is decided: text goes to a sink, and the status follows. Nothing here takes memory, so nothing
//! that was decided can be told as want of it.

ghost use Rattle.std.specs.Prelude.{◌≡◌, option_map};
ghost use Rattle.std.specs.List.{All};
ghost use Rattle.td_stream.specs.Layouts.{IsNumberOf};
ghost use Rattle.td_report.specs.Report.{report};
ghost use Rattle.td_report_host.specs.Report.{host_report};
ghost use Rattle.td_cli_host.specs.Rings.{descriptor_entry};
ghost use Rattle.td_cli_host.specs.ServedInput.{CanBeShown};
ghost use Rattle.td_report.specs.Summary.{summary};
ghost use Rattle.td_cli.specs.Totals.{totals_text};
ghost use Rattle.td_cli.specs.CallEnds.{passage};
ghost use Rattle.td_cli.specs.InputEnds.{EndsWith};
ghost use Rattle.td_cli.specs.Errors.{unanswered_line, unanswered_status, unread_line, unread_status};
ghost use Rattle.td_cli.specs.Lines.{memory_line, refusal_line};

use crate::lines::{MEMORY, READ, write_refusal};
use crate::run::FinishedRun;
use crate::status::Status;
use crate::totals::{Totals, write_totals};
use td_cli_host::served_input::ServedInput;
use td_cli_input::refusal::{InputError, Refusal};
use td_core::module::{Entry, Module};
use td_io::{ReadError, Sink, write_all};
use td_report::report::run_report;
use td_report::summary::module_summary;
use td_report_host::report::host_report;

/// Writes a line to the error stream, and answers the status that was to come, or that of a fault in writing it.
pub(crate) fn finish_with_line<E: Sink>(line: &[u8], status: Status, err: &mut E) -> Status
    ensures { EndsWith status line.now (passage E.state err.old err.new) result }
{
    match write_all(err, line) {
        Ok(()) => status,
        Err(_) => Status::WriteFault,
    }
}

/// Ends a call for which there was no memory: writes `error memory` to the error stream.
pub fn finish_out_of_memory<E: Sink>(err: &mut E) -> Status
    ensures { EndsWith Status.NoMemory memory_line (passage E.state err.old err.new) result }
{
    finish_with_line(MEMORY, Status::NoMemory, err)
}

// Ends a call whose input is refused.
fn finish_refused<E: Sink>(input: &[u8], refusal: &Refusal, err: &mut E) -> Status
    ensures { EndsWith Status.Refused (refusal_line input.now refusal.now) (passage E.state err.old err.new) result }
{
    match write_refusal(input, refusal, err) {
        Ok(()) => Status::Refused,
        Err(_) => Status::WriteFault,
    }
}

/// Ends a call whose source wasn't read to its end.
pub(crate) fn finish_unread<E: Sink>(error: ReadError, err: &mut E) -> Status
    ensures { EndsWith (unread_status error) (unread_line error) (passage E.state err.old err.new) result }
{
    match error {
        ReadError::Fault => finish_with_line(READ, Status::ReadFault, err),
        ReadError::TooLong => finish_refused(&[], &Refusal::TooLong, err),
        ReadError::NoMemory => finish_out_of_memory(err),
    }
}

/// Ends a call whose input has no answer: writes the line that says why.
pub(crate) fn finish_unanswered<E: Sink>(input: &[u8], error: &InputError, err: &mut E) -> Status
    ensures { EndsWith (unanswered_status error.now) (unanswered_line input.now error.now) (passage E.state err.old err.new) result }
{
    match error {
        InputError::Refused(refusal) => finish_refused(input, refusal, err),
        InputError::NoMemory => finish_out_of_memory(err),
    }
}

/// Ends a call with the report of a run.
pub(crate) fn finish_report<O: Sink>(run: &FinishedRun, out: &mut O) -> Status
    requires { All (λ l. IsNumberOf run.now.input.job.layout l.word) run.now.loads.list }
    ensures { EndsWith Status.Done
        (report run.now.outcome run.now.input.module run.now.input.job.entry run.now.loads.list run.now.input.job.layout run.now.input.job.written)
        (passage O.state out.old out.new) result }
{
    match run_report(
        &run.outcome,
        &run.input.module,
        run.input.job.entry,
        &run.loads,
        run.input.job.layout.as_ref(),
        run.input.job.written_bytes(),
        out,
    ) {
        Ok(()) => Status::Done,
        Err(_) => Status::WriteFault,
    }
}

// The module of descriptors, with its entry point.
fn descriptor_entry(ring: Option<&Module>) -> Option<(&Module, Entry)>
    ensures { option_map (λ r. (r.0.now, r.1)) result ≡ descriptor_entry (option_map (λ m. m.now) ring.entry) }
{
    match ring {
        None => None,
        Some(ring) => Some((ring, Entry { number: 0 })),
    }
}

/// Ends a call with the report of a host: of the replies and takes.
pub(crate) fn finish_served<O: Sink>(served: &ServedInput, out: &mut O) -> Status
    requires { CanBeShown served.now.formats served.now.entries served.now.replies served.now.takes }
    ensures { EndsWith Status.Done
        (host_report served.now.formats served.now.entries served.now.replies (descriptor_entry served.now.ring) served.now.takes)
        (passage O.state out.old out.new) result }
{
    match host_report(
        served.formats.as_slice(),
        served.entries.as_slice(),
        served.replies.as_slice(),
        descriptor_entry(served.ring.as_ref()),
        served.takes.as_slice(),
        out,
    ) {
        Ok(()) => Status::Done,
        Err(_) => Status::WriteFault,
    }
}

/// Ends a call with what a module has.
pub(crate) fn finish_summary<O: Sink>(m: &Module, out: &mut O) -> Status
    ensures { EndsWith Status.Done (summary m.now) (passage O.state out.old out.new) result }
{
    match module_summary(m, out) {
        Ok(()) => Status::Done,
        Err(_) => Status::WriteFault,
    }
}

/// Ends a call with bytes: those of a text or of an image.
pub(crate) fn finish_bytes<O: Sink>(bytes: &[u8], out: &mut O) -> Status
    ensures { EndsWith Status.Done bytes.now (passage O.state out.old out.new) result }
{
    match write_all(out, bytes) {
        Ok(()) => Status::Done,
        Err(_) => Status::WriteFault,
    }
}

/// Ends a call with the totals over some runs.
pub(crate) fn finish_totals<O: Sink>(totals: Totals, out: &mut O) -> Status
    ensures { EndsWith Status.Done (totals_text totals) (passage O.state out.old out.new) result }
{
    match write_totals(totals, out) {
        Ok(()) => Status::Done,
        Err(_) => Status::WriteFault,
    }
}
