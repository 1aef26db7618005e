//! Runs of code by the machine, in one frame.

ghost use Rattle.std.specs.Prelude.{◌≡◌, ◌<◌, ◌≤◌, ◌*◌, ◌^◌, [], length};
ghost use Rattle.td_ir.specs.Entries.{Fits};
ghost use Rattle.td_vm.specs.Frames.{IsArmed};

use crate::numbers::{Run, numbers_of, run_of, stores_of};
use crate::written::put_outcome;
use std::alloc::{AllocError, Global};
use std::marker::Brand;
use std::sync::ledger::{Blank, Ledger};
use td_core::module::Entry;
use td_core::outcome::Verdict;
use td_ir::entries::fits;
use td_sched::planned::Planned;
use td_stream::layout::Layout;
use td_stream::loads::Loads;
use td_stream::recorder::Recorder;
use td_verify::verify::Verified;
use td_vm::laws::fitting_cells_have_room;
use td_vm::validate::{Frame, validate};
use td_vm_step::steps::{NoCounter, Steps};

// One validation, in a frame that has the run's cells.
fn validated<L: Ledger>(
    alloc: Global,
    code: &Verified,
    frame: &mut Frame,
    run: &Run<'_>,
    loads: &mut Loads,
    blank: Blank,
) -> Result<Verdict, AllocError>
    requires name { blank.name ≡ L.name }
    requires parts { blank.parts ≡ L.parts }
    requires some { 0 < blank.parts }
    requires armed { IsArmed code.now frame.old }
    requires fits { Fits code.now run.now.entry run.now.args.now frame.old.cells }
    requires few { length run.now.words.now < 2 ^ 32 }
    requires room { run.now.length ≤ 8 * length run.now.words.now }
    requires empty { loads.old.list ≡ [] }
    requires loads { length run.now.words.now ≤ loads.old.room }
    ensures armed { IsArmed code.now frame.new }
{
    let stores = stores_of(alloc, run.stores)?;
    let mut planned = Planned::open(alloc, run.words, stores.as_slice())?;
    let mut words = Recorder::over(&mut planned, loads);
    let mut steps = Steps::<L, NoCounter>::none(blank, NoCounter);
    let layout = Layout::plain(run.length);
    Ok(validate(
        code, run.entry, run.args, &layout, frame, &mut words, &mut steps,
    ))
}

// How many copy buffers an entry point has.
fn buffer_count(code: &Verified, entry: Entry) -> usize {
    match code
        .code()
        .parts()
        .entries
        .as_slice()
        .get(entry.number as usize)
    {
        Some(entry) => entry.buffers.len(),
        None => 0,
    }
}

// Puts the answer to a run: `misfit` where its arguments or cells aren't those of its entry point, or its words are too few for
// its message.
fn put_run(
    alloc: Global,
    code: &Verified,
    frame: &mut Frame,
    run: &Run<'_>,
    out: &mut String,
) -> Result<(), AllocError>
    requires { IsArmed code.now frame.old }
    ensures { IsArmed code.now frame.new }
{
    let words = run.words.len();
    if words >= 1 << 32 || u64::from(run.length) > 8 * words as u64 {
        return out.push_str("misfit");
    }
    if !fits(code.code(), run.entry, run.args, run.cells) {
        return out.push_str("misfit");
    }
    fitting_cells_have_room();
    let mut loads = Loads::with_room(alloc, words as u32)?;
    frame.set_cells(run.cells);
    let verdict = validated::<Brand>(alloc, code, frame, run, &mut loads, Blank::new(1))?;
    let buffers = buffer_count(code, run.entry);
    put_outcome(alloc, out, verdict, frame, buffers, &loads)
}

// The same for a run in numbers.
fn put_run_of_text(
    alloc: Global,
    code: &Verified,
    frame: &mut Frame,
    text: &str,
    out: &mut String,
) -> Result<(), AllocError>
    requires { IsArmed code.now frame.old }
    ensures { IsArmed code.now frame.new }
{
    let Some(numbers) = numbers_of(alloc, text)? else {
        return out.push_str("no run");
    };
    match run_of(numbers.as_slice()) {
        Some(run) => put_run(alloc, code, frame, &run, out),
        None => out.push_str("no run"),
    }
}

/// Puts the answers to runs of a code, in one frame.
pub(crate) fn put_runs(
    alloc: Global,
    code: &Verified,
    runs: &str,
    out: &mut String,
) -> Result<(), AllocError> {
    let mut frame = Frame::arm(alloc, code)?;
    for text in runs.split(';') {
        if !out.is_empty() {
            out.push_str("; ")?;
        }
        put_run_of_text(alloc, code, &mut frame, text, out)?;
    }
    Ok(())
}
