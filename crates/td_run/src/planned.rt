//! A run by code on words to which others store by a plan.

ghost use Rattle.std.specs.Prelude.{◌≡◌, ℕ, ◌+◌, ◌<◌, ◌≤◌, ◌^◌, [], None, option_map, length as size_of, IfOk, IsErr, IsOk};
ghost use Rattle.td_stream.specs.Layouts.{count_in, loadable, layout_or_plain, IsOver};
ghost use Rattle.td_ir.specs.Entries.{Fits, buffers_of};
ghost use Rattle.td_vm.specs.Frames.{IsArmed, IsRestEmpty, outcome_in};
ghost use Rattle.td_run.specs.Runs.{IsRunBy};

use crate::load_count::LoadCount;
use crate::validation::validate_recorded;
use std::alloc::{AllocError, Global};
use std::sync::ledger::Ledger;
use td_core::module::Entry;
use td_core::outcome::{Outcome, Verdict};
use td_sched::planned::Planned;
use td_sched::store::PlannedStore;
use td_stream::layout::{Layout, word_count};
use td_stream::loads::Loads;
use td_verify::verify::Verified;
use td_vm::laws::fitting_cells_have_room;
use td_vm::validate::Frame;

/// What a run begins with: an entry point of code, a value for each of its parameters, and cells.
#[derive(Clone, Copy)]
pub struct Start<'a> {
    pub entry: Entry,
    pub args: &'a [u64],
    pub cells: &'a [u64],
}

/// Memory to which others store by a plan: its words, the stores, and how the message lies in the words, where it isn't at their front.
#[derive(Clone, Copy)]
pub struct Memory<'a> {
    pub words: &'a [u64],
    pub stores: &'a [PlannedStore],
    pub layout: Option<&'a Layout>,
}

/// The verdict of a run, and the loads that it made.
#[derive(Drop)]
pub struct FrameRun {
    pub verdict: Verdict,
    pub loads: Loads,
}

/// How a run came out, and the loads that it made.
#[derive(Drop)]
pub struct PlannedRun {
    pub outcome: Outcome,
    pub loads: Loads,
}

/// What a run takes memory for: the words, with the plan of stores to them, and room for a load of each. No word was loaded.
#[derive(Drop)]
pub struct Prepared<'a> {
    words: Planned<'a>,
    loads: Loads,
    pub ghost fresh: { words.loads ≡ [] },
    pub ghost empty: { loads.list ≡ [] },
    pub ghost room: { loadable words.layout (size_of words.opening) ≤ loads.room },
}

// Memory with a layout or without one.
fn opened<'a>(alloc: Global, memory: &Memory<'a>) -> Result<Planned<'a>, AllocError>
    requires few { size_of memory.now.words.now < 2 ^ 32 }
    requires over { IsOver (size_of memory.now.words.now) (option_map (λ l. l.now) memory.now.layout) }
    ensures opening { IfOk result (λ p. p.opening ≡ memory.now.words.now) }
    ensures stores { IfOk result (λ p. p.stores ≡ memory.now.stores.now) }
    ensures layout { IfOk result (λ p. p.layout ≡ option_map (λ l. l.now) memory.now.layout) }
    ensures loads { IfOk result (λ p. p.loads ≡ []) }
    ensures memory { memory.now.words.now ≡ [] → memory.now.stores.now ≡ [] → option_map (λ l. l.now) memory.now.layout ≡ None → IsOk result }
{
    match memory.layout {
        None => Planned::open(alloc, memory.words, memory.stores),
        Some(layout) => Planned::open_over(alloc, memory.words, memory.stores, layout),
    }
}

/// Takes all memory that a run takes, and loads no word. The words are lent, not copied. `AllocError`: there was no memory;
/// never where there are neither words nor stores and no layout.
pub fn prepare<'a>(alloc: Global, memory: &Memory<'a>) -> Result<Prepared<'a>, AllocError>
    requires few { size_of memory.now.words.now < 2 ^ 32 }
    requires over { IsOver (size_of memory.now.words.now) (option_map (λ l. l.now) memory.now.layout) }
    ensures opening { IfOk result (λ p. p.words.opening ≡ memory.now.words.now) }
    ensures stores { IfOk result (λ p. p.words.stores ≡ memory.now.stores.now) }
    ensures layout { IfOk result (λ p. p.words.layout ≡ option_map (λ l. l.now) memory.now.layout) }
    ensures memory { memory.now.words.now ≡ [] → memory.now.stores.now ≡ [] → option_map (λ l. l.now) memory.now.layout ≡ None → IsOk result }
{
    let count = word_count(memory.layout, memory.words.len() as u32);
    let loads = Loads::with_room(alloc, count)?;
    let words = opened(alloc, memory)?;
    Ok(Prepared { words, loads })
}

/// Runs code once over words that were prepared, in a frame that was armed for the code, from an entry point that these
/// arguments and cells fit, on a message that lies so in the words. The frame is left with the trace, the cells and the copies.
/// It has no allocator and no error: from the first load on nothing can stand in place of the verdict.
pub fn run_prepared(
    code: &Verified,
    frame: &mut Frame,
    start: &Start<'_>,
    message: &Layout,
    prepared: Prepared<'_>,
) -> FrameRun
    requires armed { IsArmed code.now frame.old }
    requires fits { Fits code.now start.now.entry start.now.args.now start.now.cells.now }
    requires room { count_in message.now ≤ loadable prepared.words.layout (size_of prepared.words.opening) }
    ensures run { (n : ℕ) → message.now ≡ layout_or_plain n prepared.entry.words.layout → IsRunBy code.now
        (record { entry = start.now.entry; args = start.now.args.now; cells = start.now.cells.now; length = n; layout = prepared.entry.words.layout; words = prepared.entry.words.opening; stores = prepared.entry.words.stores })
        (outcome_in frame.new (buffers_of code.now start.now.entry) result.verdict) result.loads.list }
    ensures rest { IsRestEmpty code.now (buffers_of code.now start.now.entry) frame.new }
    ensures armed { IsArmed code.now frame.new }
{
    fitting_cells_have_room();
    let Prepared {
        mut words,
        mut loads,
    } = prepared;
    let entry = start.entry;
    let args = start.args;
    frame.set_cells(start.cells);
    let verdict = validate_recorded(code, entry, args, message, frame, &mut words, &mut loads);
    FrameRun { verdict, loads }
}

// How a message lies that has a layout, or is plain.
fn message_in<'a>(layout: Option<&'a Layout>, plain: &'a Layout) -> &'a Layout
    ensures { (n : ℕ) → plain.now ≡ layout_or_plain n None → result.now ≡ layout_or_plain n (option_map (λ l. l.now) layout.entry) }
{
    match layout {
        None => plain,
        Some(message) => message,
    }
}

/// Runs code once over words that were prepared, on a message of `length` bytes, by the layout that they were prepared for or at their
/// front; its loads are counted. As `run_prepared`, it has no allocator and no error.
pub fn run_counted<L: Ledger>(
    code: &Verified,
    frame: &mut Frame,
    start: &Start<'_>,
    length: u32,
    layout: Option<&Layout>,
    prepared: Prepared<'_>,
    load_count: &mut LoadCount<L>,
) -> FrameRun
    requires armed { IsArmed code.now frame.old }
    requires fits { Fits code.now start.now.entry start.now.args.now start.now.cells.now }
    requires same { prepared.words.layout ≡ option_map (λ l. l.now) layout }
    requires room { count_in (layout_or_plain length (option_map (λ l. l.now) layout)) ≤ loadable prepared.words.layout (size_of prepared.words.opening) }
    ensures run { IsRunBy code.now
        (record { entry = start.now.entry; args = start.now.args.now; cells = start.now.cells.now; length = length; layout = prepared.entry.words.layout; words = prepared.entry.words.opening; stores = prepared.entry.words.stores })
        (outcome_in frame.new (buffers_of code.now start.now.entry) result.verdict) result.loads.list }
    ensures rest { IsRestEmpty code.now (buffers_of code.now start.now.entry) frame.new }
    ensures armed { IsArmed code.now frame.new }
    ensures counted { load_count.new ≡ load_count.old + size_of result.loads.list }
{
    let plain = Layout::plain(length);
    let message = message_in(layout, &plain);
    let ran = run_prepared(code, frame, start, message, prepared);
    load_count.add(&ran.loads);
    ran
}

/// Runs code once, in a frame that was armed for it, from an entry point that these arguments and cells fit, on a message of
/// `length` bytes, by the memory's layout or at the front of its words, while others store to them by its plan. The frame is
/// left with the trace, the cells and the copies. `AllocError`: there was no memory; never where there are neither words nor
/// stores and no layout. That comes of `prepare`, which loads no word; `run_prepared`, which follows, takes none, so want of
/// memory never hides an outcome.
pub fn run_in_frame(
    alloc: Global,
    code: &Verified,
    frame: &mut Frame,
    start: &Start<'_>,
    length: u32,
    memory: &Memory<'_>,
) -> Result<FrameRun, AllocError>
    requires armed { IsArmed code.now frame.old }
    requires fits { Fits code.now start.now.entry start.now.args.now start.now.cells.now }
    requires many { size_of memory.now.words.now < 2 ^ 32 }
    requires room { count_in (layout_or_plain length (option_map (λ l. l.now) memory.now.layout)) ≤ loadable (option_map (λ l. l.now) memory.now.layout) (size_of memory.now.words.now) }
    requires over { IsOver (size_of memory.now.words.now) (option_map (λ l. l.now) memory.now.layout) }
    ensures run { IfOk result (λ ran. IsRunBy code.now
        (record { entry = start.now.entry; args = start.now.args.now; cells = start.now.cells.now; length = length; layout = option_map (λ l. l.now) memory.now.layout; words = memory.now.words.now; stores = memory.now.stores.now })
        (outcome_in frame.new (buffers_of code.now start.now.entry) ran.verdict) ran.loads.list) }
    ensures rest { IsOk result → IsRestEmpty code.now (buffers_of code.now start.now.entry) frame.new }
    ensures armed { IsArmed code.now frame.new }
    ensures untouched { IsErr result → frame.new ≡ frame.old }
    ensures memory { memory.now.words.now ≡ [] → memory.now.stores.now ≡ [] → option_map (λ l. l.now) memory.now.layout ≡ None → IsOk result }
{
    let prepared = prepare(alloc, memory)?;
    let plain = Layout::plain(length);
    let message = message_in(memory.layout, &plain);
    Ok(run_prepared(code, frame, start, message, prepared))
}

/// Runs code once as `run_in_frame` does, in a frame of its own.
pub fn run_planned(
    alloc: Global,
    code: &Verified,
    start: &Start<'_>,
    length: u32,
    memory: &Memory<'_>,
) -> Result<PlannedRun, AllocError>
    requires fits { Fits code.now start.now.entry start.now.args.now start.now.cells.now }
    requires many { size_of memory.now.words.now < 2 ^ 32 }
    requires room { count_in (layout_or_plain length (option_map (λ l. l.now) memory.now.layout)) ≤ loadable (option_map (λ l. l.now) memory.now.layout) (size_of memory.now.words.now) }
    requires over { IsOver (size_of memory.now.words.now) (option_map (λ l. l.now) memory.now.layout) }
    ensures { IfOk result (λ run. IsRunBy code.now
        (record { entry = start.now.entry; args = start.now.args.now; cells = start.now.cells.now; length = length; layout = option_map (λ l. l.now) memory.now.layout; words = memory.now.words.now; stores = memory.now.stores.now })
        run.outcome run.loads.list) }
{
    let mut frame = Frame::arm(alloc, code)?;
    let ran = run_in_frame(alloc, code, &mut frame, start, length, memory)?;
    Ok(PlannedRun {
        outcome: frame.into_outcome(code, start.entry, ran.verdict),
        loads: ran.loads,
    })
}
