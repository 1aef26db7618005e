//! The ends of a call. Nothing here takes memory, so nothing that was decided can be told as want of it.

ghost use Rattle.td_c_ends.specs.Passages.{EndsWith, passage};
ghost use Rattle.td_c_ends.specs.Errors.{unanswered_line, unanswered_status, unread_line, unread_status};
ghost use Rattle.td_c_ends.specs.Lines.{memory_line, refusal_line, usage_line};

use crate::lines::{MEMORY, READ, USAGE, write_refusal};
use crate::refusal::{InputError, Refusal};
use crate::status::Status;
use td_io::{ReadError, Sink, write_all};

// Writes a line to the error stream, and answers the status that was to come, or that of a fault in writing it.
fn finish_with_line<E: Sink>(line: &[u8], status: Status, err: &mut E) -> Status
    ensures { EndsWith status line.now (passage E.state err.old err.new) result }
{
    match write_all(err, line) {
        Ok(()) => status,
        Err(_) => Status::WriteFault,
    }
}

/// Ends a call whose words mean no command: writes the usage line to the error stream.
pub fn finish_usage<E: Sink>(err: &mut E) -> Status
    ensures { EndsWith Status.Usage usage_line (passage E.state err.old err.new) result }
{
    finish_with_line(USAGE, Status::Usage, err)
}

/// Ends a call for which there was no memory: writes `error memory` to the error stream.
pub fn finish_out_of_memory<E: Sink>(err: &mut E) -> Status
    ensures { EndsWith Status.NoMemory memory_line (passage E.state err.old err.new) result }
{
    finish_with_line(MEMORY, Status::NoMemory, err)
}

/// Ends a call whose name or input is refused: writes the line that says why to the error stream.
pub fn finish_refused<E: Sink>(input: &[u8], refusal: &Refusal, err: &mut E) -> Status
    ensures { EndsWith Status.Refused (refusal_line input.now refusal.now) (passage E.state err.old err.new) result }
{
    match write_refusal(input, refusal, err) {
        Ok(()) => Status::Refused,
        Err(_) => Status::WriteFault,
    }
}

/// Ends a call whose source wasn't read to its end: writes the line that says why to the error stream.
pub fn finish_unread<E: Sink>(error: ReadError, err: &mut E) -> Status
    ensures { EndsWith (unread_status error) (unread_line error) (passage E.state err.old err.new) result }
{
    match error {
        ReadError::Fault => finish_with_line(READ, Status::ReadFault, err),
        ReadError::TooLong => finish_refused(&[], &Refusal::TooLong, err),
        ReadError::NoMemory => finish_out_of_memory(err),
    }
}

/// Ends a call whose input has no answer: writes the line that says why to the error stream.
pub fn finish_unanswered<E: Sink>(input: &[u8], error: &InputError, err: &mut E) -> Status
    ensures { EndsWith (unanswered_status error.now) (unanswered_line input.now error.now) (passage E.state err.old err.new) result }
{
    match error {
        InputError::Refused(refusal) => finish_refused(input, refusal, err),
        InputError::NoMemory => finish_out_of_memory(err),
    }
}

/// Ends a call with its output.
pub fn finish_bytes<O: Sink>(bytes: &[u8], out: &mut O) -> Status
    ensures { EndsWith Status.Done bytes.now (passage O.state out.old out.new) result }
{
    match write_all(out, bytes) {
        Ok(()) => Status::Done,
        Err(_) => Status::WriteFault,
    }
}
