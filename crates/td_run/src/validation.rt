//! Validations by code.

ghost use Rattle.std.specs.Prelude.{◌≡◌, ℕ, ◌-◌, ◌^◌, ◌≤◌, ◌<◌, List, [], length as size_of, min};
ghost use Rattle.td_stream.specs.Layouts.{count_in};
ghost use Rattle.td_stream.specs.Loads.{Carries};
ghost use Rattle.td_ir.specs.Entries.{Fits, buffers_of, opened_by};
ghost use Rattle.td_ir.specs.Run.{run};
ghost use Rattle.td_vm.specs.Frames.{IsArmed, IsRestEmpty, outcome_in};
ghost use Rattle.td_run.specs.Validation.{IsValidation};

use std::marker::Brand;
use std::sync::ledger::{Blank, Ledger};
use td_core::module::Entry;
use td_core::outcome::Verdict;
use td_lower_means::laws::code_means;
use td_stream::laws::message_is_short;
use td_stream::layout::Layout;
use td_stream::loads::Loads;
use td_stream::recorder::Recorder;
use td_stream::words::Words;
use td_verify::verify::Verified;
use td_vm::validate::{Frame, validate};
use td_vm_step::steps::{Counter, NoCounter, StepCounter, Steps};

// Where steps are counted: the blank of a ledger, and the counter that they are told to.
struct Tally<C: Counter> {
    blank: Blank,
    counter: C,
}

// Validates, and counts the steps in a ledger of its own. The counter is given back.
fn validate_counted<W: Words, L: Ledger, C: Counter>(
    code: &Verified,
    entry: Entry,
    args: &[u64],
    layout: &Layout,
    frame: &mut Frame,
    words: &mut W,
    tally: Tally<C>,
) -> (Verdict, C)
    requires armed { IsArmed code.now frame.old }
    requires fits { Fits code.now entry args.now frame.old.cells }
    requires message { count_in layout.now ≤ W.size words.old }
    requires fresh { W.loads words.old ≡ [] }
    requires name { tally.blank.name ≡ L.name }
    requires parts { tally.blank.parts ≡ L.parts }
    requires some { 0 < tally.blank.parts }
    requires counter { C.tells tally.counter 0 }
    ensures reaches { W.reaches words.old words.new }
    ensures validated { IsValidation code.now entry args.now frame.old.cells layout.now (W.loads words.new) (outcome_in frame.new (buffers_of code.now entry) result.0) }
    ensures told { (b : List ℕ) → Carries layout.now b (W.loads words.new)
        → C.tells result.1 (run code.now entry args.now (opened_by code.now entry frame.old.cells) b).steps }
    ensures cell_count { size_of frame.new.cells ≡ size_of frame.old.cells }
    ensures rest { IsRestEmpty code.now (buffers_of code.now entry) frame.new }
    ensures armed { IsArmed code.now frame.new }
{
    code_means();
    message_is_short(layout);
    let Tally { blank, counter } = tally;
    let mut steps = Steps::<L, C>::none(blank, counter);
    let verdict = validate(code, entry, args, layout, frame, words, &mut steps);
    (verdict, steps.end())
}

/// Validates a message that lies so in the words by verified code. The frame was armed for this code, and the arguments and the frame's
/// cells fit the entry point. It takes no memory. Words are loaded only where a byte of them is looked at, in rising order,
/// each at most once. On each message that carries these loads the verdict, and the trace, the cells and the copies that the frame is
/// left with, are those of the code's run (td_vm's law `run_is_bounded` bounds its steps); where it is the code of a module, and every
/// expression that the meaning evaluates lies in its type's range (as in a module that passed the safety rule), they are those of the
/// module's meaning. The buffers behind the entry point's are empty.
///
/// Where an accepted message ends, of an entry point whose argument is the message's length; the frame serves the next one:
///
/// ```
/// use td_core::{Entry, Verdict};
/// use td_run::validate_compiled;
/// use td_stream::{Layout, Words};
/// use td_verify::Verified;
/// use td_vm::Frame;
///
/// fn end_of<W: Words>(code: &Verified, entry: Entry, length: u32, frame: &mut Frame, words: &mut W) -> Option<u32> {
///     let layout = Layout::plain(length);
///     match validate_compiled(code, entry, &[u64::from(length)], &layout, frame, words) {
///         Verdict::Accept { pos } => Some(pos),
///         Verdict::Reject { .. } => None,
///     }
/// }
/// ```
pub fn validate_compiled<W: Words>(
    code: &Verified,
    entry: Entry,
    args: &[u64],
    layout: &Layout,
    frame: &mut Frame,
    words: &mut W,
) -> Verdict
    requires armed { IsArmed code.now frame.old }
    requires fits { Fits code.now entry args.now frame.old.cells }
    requires message { count_in layout.now ≤ W.size words.old }
    requires fresh { W.loads words.old ≡ [] }
    ensures reaches { W.reaches words.old words.new }
    ensures validated { IsValidation code.now entry args.now frame.old.cells layout.now (W.loads words.new) (outcome_in frame.new (buffers_of code.now entry) result) }
    ensures cell_count { size_of frame.new.cells ≡ size_of frame.old.cells }
    ensures rest { IsRestEmpty code.now (buffers_of code.now entry) frame.new }
    ensures armed { IsArmed code.now frame.new }
{
    let (verdict, _) = validate_counted::<W, Brand, NoCounter>(
        code,
        entry,
        args,
        layout,
        frame,
        words,
        Tally {
            blank: Blank::new(1),
            counter: NoCounter,
        },
    );
    verdict
}

/// Validates as `validate_compiled` does, and tells how many steps the code's run took, 2^64 - 1 where they are more.
pub fn validate_with_steps<W: Words>(
    code: &Verified,
    entry: Entry,
    args: &[u64],
    layout: &Layout,
    frame: &mut Frame,
    words: &mut W,
) -> (Verdict, u64)
    requires armed { IsArmed code.now frame.old }
    requires fits { Fits code.now entry args.now frame.old.cells }
    requires message { count_in layout.now ≤ W.size words.old }
    requires fresh { W.loads words.old ≡ [] }
    ensures reaches { W.reaches words.old words.new }
    ensures validated { IsValidation code.now entry args.now frame.old.cells layout.now (W.loads words.new) (outcome_in frame.new (buffers_of code.now entry) result.0) }
    ensures told { (b : List ℕ) → Carries layout.now b (W.loads words.new)
        → result.1 ≡ min (run code.now entry args.now (opened_by code.now entry frame.old.cells) b).steps (2 ^ 64 - 1) }
    ensures cell_count { size_of frame.new.cells ≡ size_of frame.old.cells }
    ensures rest { IsRestEmpty code.now (buffers_of code.now entry) frame.new }
    ensures armed { IsArmed code.now frame.new }
{
    let (verdict, told) = validate_counted::<W, Brand, StepCounter>(
        code,
        entry,
        args,
        layout,
        frame,
        words,
        Tally {
            blank: Blank::new(1),
            counter: StepCounter { count: 0 },
        },
    );
    (verdict, told.count)
}

/// Validates as `validate_compiled` does, and keeps each load in an empty list that has room for one of each word.
///
/// How many words of a message were loaded, by code whose entry point takes no arguments:
///
/// ```
/// use std::alloc::{AllocError, Global};
/// use td_core::Entry;
/// use td_run::validate_recorded;
/// use td_stream::{Layout, Loads, Words};
/// use td_verify::Verified;
/// use td_vm::Frame;
///
/// fn loaded<W: Words>(alloc: Global, code: &Verified, entry: Entry, layout: &Layout, words: &mut W) -> Result<usize, AllocError> {
///     let mut frame = Frame::arm(alloc, code)?;
///     let mut loads = Loads::with_room(alloc, words.count())?;
///     validate_recorded(code, entry, &[], layout, &mut frame, words, &mut loads);
///     Ok(loads.as_slice().len())
/// }
/// ```
pub fn validate_recorded<W: Words>(
    code: &Verified,
    entry: Entry,
    args: &[u64],
    layout: &Layout,
    frame: &mut Frame,
    words: &mut W,
    loads: &mut Loads,
) -> Verdict
    requires armed { IsArmed code.now frame.old }
    requires fits { Fits code.now entry args.now frame.old.cells }
    requires message { count_in layout.now ≤ W.size words.old }
    requires fresh { W.loads words.old ≡ [] }
    requires empty { loads.old.list ≡ [] }
    requires room { W.size words.old ≤ loads.old.room }
    ensures reaches { W.reaches words.old words.new }
    ensures loads { W.loads words.new ≡ loads.new.list }
    ensures validated { IsValidation code.now entry args.now frame.old.cells layout.now loads.new.list (outcome_in frame.new (buffers_of code.now entry) result) }
    ensures cell_count { size_of frame.new.cells ≡ size_of frame.old.cells }
    ensures rest { IsRestEmpty code.now (buffers_of code.now entry) frame.new }
    ensures armed { IsArmed code.now frame.new }
{
    let mut recorder = Recorder::over(words, loads);
    let (verdict, _) = validate_counted::<_, Brand, NoCounter>(
        code,
        entry,
        args,
        layout,
        frame,
        &mut recorder,
        Tally {
            blank: Blank::new(1),
            counter: NoCounter,
        },
    );
    verdict
}
