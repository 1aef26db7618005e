//! Answers in words and numbers: `accept` and a position, or `reject`, the number of a reason and a position; of each frame of the
//! trace `f`, the numbers of its type and field (or `where` or `switch`), the number of its reason and the position at which it
//! began; of each cell `c` and its value; of each copy buffer `b` and the bytes that it holds in hexadecimal digits, `-` for none; of
//! each load `l`, its word and the value.

use itoa::Buffer;
use std::alloc::{AllocError, Global};
use td_core::outcome::{Reason, Spot, TraceFrame, Verdict};
use td_stream::loads::Loads;
use td_vm::validate::Frame;

/// Puts words and a number.
pub fn put(out: &mut String, words: &str, number: u64) -> Result<(), AllocError> {
    let mut digits = Buffer::new();
    out.push_str(words)?;
    out.push_str(digits.format(number))
}

fn reason_number(reason: Reason) -> u64 {
    match reason {
        Reason::NotEnough => 0,
        Reason::Impossible => 1,
        Reason::ListSize => 2,
        Reason::Action => 3,
        Reason::Constraint => 4,
        Reason::Padding => 5,
    }
}

fn put_verdict(out: &mut String, verdict: Verdict) -> Result<(), AllocError> {
    match verdict {
        Verdict::Accept { pos } => put(out, "accept ", u64::from(pos)),
        Verdict::Reject { reason, pos } => {
            put(out, "reject ", reason_number(reason))?;
            put(out, " ", u64::from(pos))
        }
    }
}

fn put_frame(out: &mut String, frame: TraceFrame) -> Result<(), AllocError> {
    put(out, " f ", u64::from(frame.ty.number))?;
    match frame.field {
        Spot::Field(name) => put(out, " ", u64::from(name.number))?,
        Spot::Where => out.push_str(" where")?,
        Spot::Switch => out.push_str(" switch")?,
    }
    put(out, " ", reason_number(frame.reason))?;
    put(out, " ", u64::from(frame.start))
}

fn put_copy(alloc: Global, out: &mut String, bytes: &[u8]) -> Result<(), AllocError> {
    out.push_str(" b ")?;
    if bytes.is_empty() {
        return out.push_str("-");
    }
    let digits = hex::encode(alloc, bytes)?;
    out.push_str(digits.as_str())
}

/// Puts how a run came out: its verdict, the trace, the cells and so many buffers with which the frame was left, and the loads.
pub(crate) fn put_outcome(
    alloc: Global,
    out: &mut String,
    verdict: Verdict,
    frame: &Frame,
    buffers: usize,
    loads: &Loads,
) -> Result<(), AllocError> {
    put_verdict(out, verdict)?;
    for line in frame.trace() {
        put_frame(out, *line)?;
    }
    for value in frame.cells() {
        put(out, " c ", *value)?;
    }
    for buffer in frame.copies().iter().take(buffers) {
        put_copy(alloc, out, buffer.as_slice())?;
    }
    for load in loads.as_slice() {
        put(out, " l ", u64::from(load.word))?;
        put(out, " ", load.value)?;
    }
    Ok(())
}
