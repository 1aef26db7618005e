//! Run jobs whose message is a value, which is written by the entry point's type.

ghost use Rattle.std.specs.Prelude.{◌≡◌, ◌≢◌, ◌⊎◌, ◌++◌, ◌<◌, [], Err, Some, IfOk, IfErr, OnOk};
ghost use Rattle.std.specs.List.{All};
ghost use Rattle.serde_json.specs.Find.{as_object};
ghost use Rattle.serde_json.specs.View.{view};
ghost use Rattle.td_core.specs.Entries.{entry_definition};
ghost use Rattle.td_core.specs.Formed.{AllFit, params_at, cells_at};
ghost use Rattle.td_meaning.specs.Copies.{opened};
ghost use Rattle.td_write_values.specs.Writing.{Written, writing, whole};
ghost use Rattle.td_write.specs.Answers.{IsWritable, IsRefusal};
ghost use Rattle.td_job.specs.Fields.{field_of, fault_if_there, IsFirst};
ghost use Rattle.td_job.specs.Jobs.{beside_faults, faults_by, first_unknown, from_value, given_stores, run_keys, stores_faults, unknown_faults, BeginsWithValue, FirstFaultBy, HasRoom, IsJobWith};
ghost use Rattle.td_job.specs.Valued.{IsStarted, IsWrittenAs};
ghost use Rattle.td_job.specs.Written.{datum_of, write_faults};

use crate::checks::{check_names, entry_of};
use crate::error::{JobError, JobRule, Key, Path, ValueFault};
use crate::json::field_of;
use crate::run_job::{FIELDS, RunJob};
use crate::stores::{check_stores, stores_of};
use crate::values::{cells_of, check_args, check_cells, definition_of, params_of, values_of};
use crate::words::fill_words;
use crate::written::{check_value, read_value};
use serde_json::Value as Json;
use std::alloc::Global;
use td_core::module::{Entry, Module};
use td_num::items::Items;
use td_num::text::Text;
use td_sched::store::PlannedStore;
use td_write::write_value;
use td_write_spells::laws::{kinds_are_admitted, writing_is_exact};
use td_write_values::error::{WriteError, WriteRule};

/// Tests that a field doesn't stand beside a value. J2: it does. Takes no memory.
fn check_absent(job: &Json, key: Key) -> Result<(), JobError>
    ensures ok { OnOk result (fault_if_there (field_of key (view job.now)) (JobError.Fault JobRule.Form (Path.Whole key)) ≡ []) }
    ensures err { IfErr result (λ e. IsFirst (fault_if_there (field_of key (view job.now)) (JobError.Fault JobRule.Form (Path.Whole key))) e) }
    ensures broken { IfErr result (λ e. e ≢ JobError.NoMemory) }
{
    match field_of(job, key) {
        None => Ok(()),
        Some(_) => Err(JobRule::Form.at(Path::Whole(key))),
    }
}

/// Tests that nothing else that says what the message is stands beside a value. J2: `bytes`, `length` or `stretches` does; the first
/// of these. Takes no memory.
fn check_alone(job: &Json) -> Result<(), JobError>
    ensures ok { OnOk result (beside_faults (view job.now) ≡ []) }
    ensures err { IfErr result (λ e. IsFirst (beside_faults (view job.now)) e) }
    ensures broken { IfErr result (λ e. e ≢ JobError.NoMemory) }
{
    check_absent(job, Key::Bytes)?;
    check_absent(job, Key::Length)?;
    check_absent(job, Key::Stretches)
}

/// Tests the fields of a job of a value up to the value's form, and gives the entry point. J2 to J5: the first fault of these. Takes
/// no memory.
fn check_before(job: &Json, value: &Json, m: &Module) -> Result<Entry, JobError>
    ensures ok { IfOk result (λ entry. BeginsWithValue m.now (view job.now) (view value.now) entry) }
    ensures err { IfErr result (λ e. FirstFaultBy (faults_by (Some (view value.now))) m.now (view job.now) e) }
    ensures broken { IfErr result (λ e. e ≢ JobError.NoMemory) }
{
    let entry = entry_of(job, m)?;
    let definition = definition_of(m, entry);
    check_args(job, params_of(definition))?;
    check_cells(job, cells_of(definition))?;
    check_alone(job)?;
    check_value(value, Key::Value)?;
    Ok(entry)
}

/// The fault of a value that breaks a rule at a place in it.
fn fault_at(places: Items<usize>, rule: WriteRule) -> JobError
    ensures { result ≡ JobError.Fault JobRule.Written (Path.Written (record { places = places; rule = rule })) }
{
    JobRule::Written.at(Path::Written(ValueFault { places, rule }))
}

/// The cause of an error of writing. J8: the bytes are too many. J10: the value is refused. `NoMemory` exactly where it was that. Takes
/// no memory.
fn fault_of(error: WriteError) -> JobError
    ensures refused { (w : Written) → IsRefusal w error → (result ≡ JobError.NoMemory) ⊎ IsFirst (write_faults w) result }
    ensures memory { result ≡ JobError.NoMemory → error ≡ WriteError.NoMemory }
{
    match error {
        WriteError::Shape { path } => fault_at(path, WriteRule::Shape),
        WriteError::Range { path } => fault_at(path, WriteRule::Range),
        WriteError::Broken { path, reason } => fault_at(path, WriteRule::Broken(reason)),
        WriteError::Size { path } => fault_at(path, WriteRule::Size),
        WriteError::Long => JobRule::Limit.at(Path::Whole(Key::Value)),
        WriteError::NoMemory => JobError::NoMemory,
    }
}

/// The bytes that a value is written as. J8, J10: why it isn't written.
fn bytes_of_value(
    alloc: Global,
    m: &Module,
    entry: Entry,
    args: &[u64],
    cells: &[u64],
    value: &Json,
) -> Result<Text, JobError>
    requires writable { IsWritable m.now }
    requires args { AllFit (params_at (entry_definition m.now entry.number)) args.now }
    requires cells { AllFit (cells_at (entry_definition m.now entry.number)) cells.now }
    ensures ok { IfOk result (IsWrittenAs m.now entry args.now cells.now (datum_of (view value.now))) }
    ensures err { IfErr result (λ e. (e ≡ JobError.NoMemory) ⊎ IsFirst (write_faults (writing whole m.now entry args.now (opened m.now entry cells.now) (datum_of (view value.now)))) e) }
{
    writing_is_exact();
    kinds_are_admitted();
    let value = read_value(alloc, value)?;
    let mut bytes = Vec::new(alloc);
    let written = write_value(alloc, m, entry, args, cells, &value, &mut bytes);
    // by a call, as each way through its variants, where it is let go, is a way through the function
    drop(value);
    match written {
        Ok(_) => Ok(Text::of(bytes)),
        Err(error) => Err(fault_of(error)),
    }
}

/// A job up to its value, which is written.
#[derive(Drop)]
struct Started {
    entry: Entry,
    args: Items<u64>,
    cells: Items<u64>,
    bytes: Text,
}

/// A job up to its value, which is written. J2 to J5, J8, J10: the first fault of these.
fn start_job(alloc: Global, job: &Json, value: &Json, m: &Module) -> Result<Started, JobError>
    requires { IsWritable m.now }
    ensures ok { IfOk result (λ s. IsStarted m.now (view job.now) (view value.now) s.entry s.args s.cells s.bytes) }
    ensures err { IfErr result (λ e. (e ≡ JobError.NoMemory) ⊎ FirstFaultBy (faults_by (Some (view value.now))) m.now (view job.now) e) }
    ensures memory { result ≡ Err JobError.NoMemory → (entry : Entry) × BeginsWithValue m.now (view job.now) (view value.now) entry }
{
    let entry = check_before(job, value, m)?;
    let definition = definition_of(m, entry);
    let args = values_of(alloc, job, Key::Args, params_of(definition))?;
    let cells = values_of(alloc, job, Key::Cells, cells_of(definition))?;
    let bytes = bytes_of_value(alloc, m, entry, args.as_slice(), cells.as_slice(), value)?;
    Ok(Started {
        entry,
        args,
        cells,
        bytes,
    })
}

/// The stores of a job of so many words, where it has no field of another name. J2 to J8: the first fault of these.
fn stores_alone(alloc: Global, job: &Json, words: u32) -> Result<Items<PlannedStore>, JobError>
    ensures ok { IfOk result (λ stores. stores ≡ given_stores (view job.now)) }
    ensures faultless { OnOk result (stores_faults words (field_of Key.Stores (view job.now)) ++ unknown_faults Path.Unknown (first_unknown run_keys (as_object (view job.now))) ≡ []) }
    ensures inside { IfOk result (λ stores. All (λ s. s.word < words) stores) }
    ensures err { IfErr result (λ e. (e ≡ JobError.NoMemory) ⊎ IsFirst (stores_faults words (field_of Key.Stores (view job.now)) ++ unknown_faults Path.Unknown (first_unknown run_keys (as_object (view job.now)))) e) }
{
    check_stores(job, words)?;
    check_names(alloc, job, FIELDS)?;
    stores_of(alloc, job, words)
}

/// The run job of a parsed text that has a value, or its first fault.
pub(crate) fn job_of_value(
    alloc: Global,
    job: &Json,
    value: &Json,
    m: &Module,
) -> Result<RunJob, JobError>
    requires { IsWritable m.now }
    ensures ok { IfOk result (λ j. IsJobWith (from_value m.now j.entry (view job.now) (view value.now)) m.now (view job.now) j) }
    ensures room { IfOk result HasRoom }
    ensures err { IfErr result (λ e. (e ≡ JobError.NoMemory) ⊎ FirstFaultBy (faults_by (Some (view value.now))) m.now (view job.now) e) }
    ensures memory { result ≡ Err JobError.NoMemory → (entry : Entry) × BeginsWithValue m.now (view job.now) (view value.now) entry }
{
    let started = start_job(alloc, job, value, m)?;
    let bytes = started.bytes.as_slice();
    let length = bytes.len() as u32;
    let count = length.div_ceil(8);
    let stores = stores_alone(alloc, job, count)?;
    let words = fill_words(alloc, bytes, count)?;
    Ok(RunJob {
        entry: started.entry,
        args: started.args,
        cells: started.cells,
        words,
        length,
        layout: None,
        stores,
        written: Some(started.bytes),
    })
}
