//! The answer to an input: what its run comes to, where the bodies agree.

ghost use Rattle.std.specs.Prelude.{◌<◌, ◌≤◌, ◌^◌, ◌-◌, length};
ghost use Rattle.std.specs.List.{All};
ghost use Rattle.td_stream.specs.Layouts.{IsNumberOf};
ghost use Rattle.td_front.specs.Checked.{IsChecked};
ghost use Rattle.td_job.specs.Jobs.{HasRoom, HasValues};
ghost use Rattle.td_cli_input.specs.Inputs.{IsSoundJob};

use crate::bodies::{run_compiled, run_direct, run_plain};
use hex::FromHexError;
use std::alloc::{AllocError, Global};
use td_cli_input::refusal::InputError;
use td_cli_input::run::parse_run_input;
use td_core::module::Module;
use td_core::outcome::Outcome;
use td_front::laws::modules_are_checked;
use td_io::MemorySink;
use td_job::run_job::RunJob;
use td_num::items::Items;
use td_report::report::run_report;
use td_report_facts::laws::jobs_are_sized;
use td_run::planned::PlannedRun;

/// The most bytes of an input, as for `td`.
const MOST_INPUT: usize = td_core::limits::MOST_INPUT;
/// The most bytes of a report.
const MOST_REPORT: usize = 1 << 20;
/// What stands in the words that weren't loaded: the meaning must not depend on it.
const FILLERS: [u8; 2] = [0, 0xa5];

fn is_same(one: &Outcome, other: &Outcome) -> bool {
    one.verdict == other.verdict
        && one.trace.as_slice() == other.trace.as_slice()
        && one.cells.as_slice() == other.cells.as_slice()
        && are_same(one.copies.as_slice(), other.copies.as_slice())
}

fn are_same(one: &[Items<u8>], other: &[Items<u8>]) -> bool {
    if one.len() != other.len() {
        return false;
    }
    for i in 0..one.len() {
        if one[i].as_slice() != other[i].as_slice() {
            return false;
        }
    }
    true
}

// The report of a run, with a semicolon for each line feed.
fn report_line(
    alloc: Global,
    m: &Module,
    job: &RunJob,
    run: &PlannedRun,
) -> Result<Vec<u8>, AllocError>
    requires { All (λ l. IsNumberOf job.now.layout l.word) run.now.loads.list }
{
    let layout = job.layout.as_ref();
    let mut out = MemorySink::with_room(alloc, MOST_REPORT, Vec::new(alloc))?;
    let told = run_report(
        &run.outcome,
        m,
        job.entry,
        &run.loads,
        layout,
        job.written_bytes(),
        &mut out,
    );
    if told.is_err() {
        return b"long report".to_vec(alloc);
    }
    let mut line = Vec::new(alloc);
    for byte in out.written() {
        line.push(if *byte == b'\n' { b';' } else { *byte })?;
    }
    Ok(line)
}

// Whether the validator has this outcome, and made these loads.
fn is_direct(alloc: Global, m: &Module, job: &RunJob, run: &PlannedRun) -> Result<bool, AllocError>
    requires checked { IsChecked m.now }
    requires values { HasValues m.now job.now }
    requires room { HasRoom job.now }
    requires sound { IsSoundJob m.now job.now }
{
    let direct = run_direct(alloc, m, job)?;
    let is_one = run.loads.as_slice() == direct.loads.as_slice();
    Ok(is_one && is_same(&run.outcome, &direct.outcome))
}

// Whether this is what the module means, whatever the words have that weren't loaded.
fn is_meant(alloc: Global, m: &Module, job: &RunJob, run: &PlannedRun) -> Result<bool, AllocError> {
    for filler in FILLERS {
        let plain = run_plain(alloc, m, job, &run.loads, filler)?;
        if !is_same(&run.outcome, &plain) {
            return Ok(false);
        }
    }
    Ok(true)
}

fn answer_job(alloc: Global, m: &Module, job: &RunJob) -> Result<Vec<u8>, AllocError>
    requires checked { IsChecked m.now }
    requires entry { job.now.entry.number < length m.now.entries }
    requires values { HasValues m.now job.now }
    requires room { HasRoom job.now }
    requires sound { IsSoundJob m.now job.now }
{
    let run = run_compiled(alloc, m, job)?;
    if !is_direct(alloc, m, job, &run)? {
        return b"differs validator".to_vec(alloc);
    }
    if !is_meant(alloc, m, job, &run)? {
        return b"differs meaning".to_vec(alloc);
    }
    report_line(alloc, m, job, &run)
}

fn answer_input(alloc: Global, input: &[u8]) -> Result<Vec<u8>, AllocError>
    requires { length input.now < 2 ^ 32 - 1 }
{
    modules_are_checked();
    jobs_are_sized();
    match parse_run_input(alloc, input) {
        Ok(parsed) => answer_job(alloc, &parsed.module, &parsed.job),
        Err(InputError::NoMemory) => Err(AllocError),
        Err(InputError::Refused(_)) => b"refused".to_vec(alloc),
    }
}

/// The answer to a line. `AllocError`: there was no memory.
pub fn answer(alloc: Global, line: &str) -> Result<Vec<u8>, AllocError> {
    let input = match hex::decode(alloc, line) {
        Ok(input) => input,
        Err(FromHexError::OutOfMemory) => return Err(AllocError),
        Err(_) => return b"no hexadecimal digits".to_vec(alloc),
    };
    if input.len() > MOST_INPUT {
        return b"refused".to_vec(alloc);
    }
    answer_input(alloc, input.as_slice())
}
