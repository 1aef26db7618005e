//! Answers as numbers of C.

ghost use Rattle.std.specs.Prelude.{◌≡◌, pos};
ghost use Rattle.td_c.specs.Numbers.{answer_number, reason_number, spot_number, frame_told};

use td_core::outcome::{Reason, Spot, TraceFrame, Verdict};

/// Why nothing was validated.
#[derive(Clone, Copy, PartialEq, Eq)]
pub enum Refusal {
    /// The message doesn't lie within the words.
    Past,
    /// The code has no entry point of this number.
    NoEntry,
    /// Arguments and cells aren't those of the entry point: they are more or fewer, or one is too wide.
    Unfit,
}

/// A verdict, or why there is none.
pub type Answer = Result<Verdict, Refusal>;

/// `TD_DONE` of td.h.
pub(crate) const DONE: i32 = 0;
/// `TD_CLOSED` of td.h.
pub(crate) const CLOSED: i32 = 3;
/// `TD_NO_MEMORY` of td.h.
pub(crate) const NO_MEMORY: i32 = 4;
/// `TD_MISSING` of td.h.
pub(crate) const MISSING: i32 = 5;
/// `TD_TOO_MUCH` of td.h.
pub(crate) const TOO_MUCH: i32 = 8;

/// A type that encloses a failure, and what failed in it.
#[repr(C)]
#[derive(Clone, Copy)]
pub struct TdFrame {
    /// The number of the type's name.
    pub kind: u32,
    /// What failed in it: 0 a field, 1 `where`, 2 the switch value.
    pub spot: u32,
    /// The number of the field's name, where it is a field; else 0.
    pub field: u32,
    /// The byte at which that field began.
    pub start: u32,
    /// Why: a number of `td_reason`.
    pub reason: u32,
}

/// The number of `td_reason` in td.h that stands for a reason.
pub(crate) fn reason_of(reason: Reason) -> u32
    ensures { result ≡ reason_number reason }
{
    match reason {
        Reason::NotEnough => 0,
        Reason::Impossible => 1,
        Reason::ListSize => 2,
        Reason::Action => 3,
        Reason::Constraint => 4,
        Reason::Padding => 5,
    }
}

fn spot_of(spot: Spot) -> (u32, u32)
    ensures { result ≡ spot_number spot }
{
    match spot {
        Spot::Field(name) => (0, name.number),
        Spot::Where => (1, 0),
        Spot::Switch => (2, 0),
    }
}

/// A frame as C has it.
pub(crate) fn frame_of(frame: &TraceFrame) -> TdFrame
    ensures { result ≡ frame_told frame.now }
{
    let (spot, field) = spot_of(frame.field);
    TdFrame {
        kind: frame.ty.number,
        spot,
        field,
        start: frame.start,
        reason: reason_of(frame.reason),
    }
}

/// The number of an answer.
pub(crate) fn number_of(answer: Answer) -> i32
    ensures { result ≡ answer_number answer }
{
    match answer {
        Ok(Verdict::Accept { pos: _ }) => 0,
        Ok(Verdict::Reject { reason: _, pos: _ }) => 1,
        Err(Refusal::Unfit) => 2,
        Err(Refusal::NoEntry) => 5,
        Err(Refusal::Past) => 6,
    }
}
