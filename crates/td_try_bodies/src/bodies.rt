//! The bodies that run a job.

ghost use Rattle.std.specs.Prelude.{◌≡◌, ◌<◌, ◌≤◌, [], length, IfOk};
ghost use Rattle.td_stream.specs.Layouts.{count_in, loadable, layout_or_plain};
ghost use Rattle.td_front.specs.Checked.{IsChecked};
ghost use Rattle.td_job.specs.Jobs.{HasRoom, HasValues};
ghost use Rattle.td_cli_input.specs.Inputs.{IsSoundJob};
ghost use Rattle.td_try_bodies.specs.Meant.{IsJobMeant};

use crate::carried::carried;
use std::alloc::{AllocError, Global};
use td_core::module::Module;
use td_core::outcome::{Outcome, Trace};
use td_direct::buffers::buffers_of;
use td_direct::call::Call;
use td_direct::recorded::validate_direct_recorded;
use td_job::run_job::RunJob;
use td_lower::lower::lower;
use td_lower_means::laws::arguments_fit;
use td_meaning_plain::meaning::meaning;
use td_num::items::Items;
use td_run::planned::{Memory, PlannedRun, Start, run_planned};
use td_sched::planned::Planned;
use td_stream::laws::message_is_short;
use td_stream::layout::Layout;
use td_stream::loads::Loads;
use td_vm::outcome::held_by_first;

/// Runs a job of a checked module by the module's code, as `td run` does. `AllocError`: there was no memory.
pub(crate) fn run_compiled(
    alloc: Global,
    m: &Module,
    job: &RunJob,
) -> Result<PlannedRun, AllocError>
    requires checked { IsChecked m.now }
    requires entry { job.now.entry.number < length m.now.entries }
    requires values { HasValues m.now job.now }
    requires room { HasRoom job.now }
    requires sound { IsSoundJob m.now job.now }
    ensures { IfOk result (λ run. IsJobMeant m.now job.now run.outcome run.loads.list) }
{
    arguments_fit();
    let code = lower(alloc, m)?;
    let args = job.args.as_slice();
    let cells = job.cells.as_slice();
    let start = Start {
        entry: job.entry,
        args,
        cells,
    };
    let words = job.words.as_slice();
    let stores = job.stores.as_slice();
    let layout = job.layout.as_ref();
    let memory = Memory {
        words,
        stores,
        layout,
    };
    run_planned(alloc, &code, &start, job.length, &memory)
}

// Runs the validator once, without code, on a message that lies so in planned words, of which at most `room` may be loaded.
// `AllocError`: there was no memory.
fn run_on(
    alloc: Global,
    m: &Module,
    job: &RunJob,
    layout: &Layout,
    planned: &mut Planned<'_>,
    room: u32,
) -> Result<PlannedRun, AllocError>
    requires message { count_in layout.now ≤ loadable planned.old.layout (length planned.old.opening) }
    requires room { loadable planned.old.layout (length planned.old.opening) ≤ room }
    requires fresh { planned.old.loads ≡ [] }
    requires laid { layout.now ≡ layout_or_plain job.now.length job.now.layout }
    requires checked { IsChecked m.now }
    requires values { HasValues m.now job.now }
    requires long { HasRoom job.now }
    requires sound { IsSoundJob m.now job.now }
    ensures { IfOk result (λ run. IsJobMeant m.now job.now run.outcome run.loads.list) }
{
    let args = job.args.as_slice();
    let call = Call {
        entry: job.entry,
        args,
    };
    let mut loads = Loads::with_room(alloc, room)?;
    let mut cells = Vec::from_slice(alloc, job.cells.as_slice())?;
    let mut copies = buffers_of(alloc, m, job.entry)?;
    let mut trace = Trace::new(alloc);
    let verdict = validate_direct_recorded(
        alloc,
        m,
        &call,
        layout,
        cells.as_mut_slice(),
        &mut copies,
        &mut trace,
        planned,
        &mut loads,
    )?;
    let count = copies.buffers.len();
    let kept = Vec::with_capacity(alloc, count)?;
    let outcome = Outcome {
        verdict,
        trace,
        cells: Items::of(cells),
        copies: held_by_first(copies.buffers, kept, count),
    };
    Ok(PlannedRun { outcome, loads })
}

/// Runs a job of a checked module by the validator, without code. `AllocError`: there was no memory.
pub(crate) fn run_direct(alloc: Global, m: &Module, job: &RunJob) -> Result<PlannedRun, AllocError>
    requires checked { IsChecked m.now }
    requires values { HasValues m.now job.now }
    requires room { HasRoom job.now }
    requires sound { IsSoundJob m.now job.now }
    ensures { IfOk result (λ run. IsJobMeant m.now job.now run.outcome run.loads.list) }
{
    let words = job.words.as_slice();
    let stores = job.stores.as_slice();
    match &job.layout {
        None => {
            let layout = Layout::plain(job.length);
            let mut planned = Planned::open(alloc, words, stores)?;
            run_on(alloc, m, job, &layout, &mut planned, words.len() as u32)
        }
        Some(layout) => {
            let mut planned = Planned::open_over(alloc, words, stores, layout)?;
            run_on(alloc, m, job, layout, &mut planned, layout.count())
        }
    }
}

/// What the module means, by the plain program, on a message that carries loads; each byte of a word that wasn't loaded is
/// `filler`. `AllocError`: there was no memory.
pub(crate) fn run_plain(
    alloc: Global,
    m: &Module,
    job: &RunJob,
    loads: &Loads,
    filler: u8,
) -> Result<Outcome, AllocError> {
    let plain = Layout::plain(job.length);
    let layout = job.layout.as_ref().unwrap_or(&plain);
    message_is_short(layout);
    let bytes = carried(alloc, layout, loads, filler)?;
    let args = job.args.as_slice();
    let cells = job.cells.as_slice();
    meaning(alloc, m, job.entry, args, cells, bytes.as_slice())
}
