//! Run jobs.

ghost use Rattle.std.specs.Prelude.{◌≡◌, ◌⊎◌, ◌+◌, ◌*◌, ◌<◌, length, Err, Some, None, IfOk, IfErr, MatchResult, option_map};
ghost use Rattle.serde_json.specs.View.{view};
ghost use Rattle.td_job.specs.Fields.{number_of, text_of, IsFirst};
ghost use Rattle.td_job.specs.Jobs.{bytes_faults, faults_by, from_bytes, given_bytes, job_words, BeginsWell, EndsWell, IsJob, IsJobWith, IsRunJob, HasRoom, HasValues, MayLackForBytes, MayLackMemory, FirstFault, FirstFaultBy, RefusedJob};
ghost use Rattle.td_job.specs.Words.{IsFilled};
ghost use Rattle.td_write.specs.Answers.{IsWritable};

use crate::checks::{bytes_of, check_names, count_of, entry_of, length_of};
use crate::error::{JobError, Key};
use crate::json::{field_of, read_json};
use crate::stores::{check_stores, stores_of};
use crate::stretches::{check_stretches, layout_of};
use crate::valued::job_of_value;
use crate::values::{cells_of, check_args, check_cells, definition_of, params_of, values_of};
use crate::words::fill_words;
use serde_json::Value;
use std::alloc::Global;
use td_core::module::{Entry, Module};
use td_num::items::Items;
use td_num::text::Text;
use td_sched::store::PlannedStore;
use td_stream::layout::Layout;

/// A message to validate, and from where.
#[derive(Drop)]
pub struct RunJob {
    /// The entry point at which validation begins.
    pub entry: Entry,
    /// A value for each of its parameters.
    pub args: Items<u64>,
    /// The value that each of its cells begins with.
    pub cells: Items<u64>,
    /// The words with a byte of the message, or where it has a layout with any byte given, each of eight bytes, that of least weight
    /// first.
    pub words: Items<u64>,
    /// How many bytes the message has.
    pub length: u32,
    /// How the message lies in the words; none where it is their first bytes.
    pub layout: Option<Layout>,
    /// What others store to the words, and before which load, in the order given.
    pub stores: Items<PlannedStore>,
    /// The bytes of the message, where they were written of a value.
    pub written: Option<Text>,
}

impl RunJob {
    /// The bytes of the message, where they were written of a value. Takes no memory.
    pub fn written_bytes(&self) -> Option<&[u8]>
        ensures { option_map (λ bytes. bytes.now) result ≡ self.now.written }
    {
        match &self.written {
            None => None,
            Some(bytes) => Some(bytes.as_slice()),
        }
    }
}

/// The fields of a run job.
pub(crate) const FIELDS: &[Key] = &[
    Key::Entry,
    Key::Args,
    Key::Cells,
    Key::Bytes,
    Key::Length,
    Key::Stretches,
    Key::Value,
    Key::Stores,
];

/// What the fields of a job of bytes were found to say before any memory was taken.
#[derive(Clone, Copy)]
struct Tested {
    entry: Entry,
    /// How many bytes are given.
    given: usize,
    /// How many bytes the message has.
    length: u32,
    /// How many words the job has.
    words: u32,
}

/// Tests the fields of a job of bytes, those of other names apart. J2 to J8: the first fault of these. `NoMemory`: there are stretches, and
/// 2^32 bytes or more. Takes no memory.
fn check_fields(job: &Value, m: &Module) -> Result<Tested, JobError>
    ensures begins { IfOk result (λ x. BeginsWell m.now (view job.now) x.entry) }
    ensures ends { IfOk result (λ _. EndsWell (view job.now)) }
    ensures given { IfOk result (λ x. length (given_bytes (view job.now)) ≡ x.given) }
    ensures as_long { IfOk result (λ x. number_of Key.Length (view job.now) ≡ Some x.length) }
    ensures words { IfOk result (λ x. job_words (view job.now) ≡ x.words) }
    ensures err { IfErr result (λ e. (e ≡ JobError.NoMemory) ⊎ FirstFaultBy (faults_by None) m.now (view job.now) e) }
    ensures memory { result ≡ Err JobError.NoMemory → MayLackForBytes m.now (view job.now) }
{
    let entry = entry_of(job, m)?;
    let definition = definition_of(m, entry);
    check_args(job, params_of(definition))?;
    check_cells(job, cells_of(definition))?;
    let given = count_of(job, Key::Bytes)?;
    let length = length_of(job, given)?;
    let words = check_stretches(job, given, length)?;
    check_stores(job, words)?;
    Ok(Tested {
        entry,
        given,
        length,
        words,
    })
}

/// The first words that the bytes of a job fill, this many.
fn words_of(alloc: Global, job: &Value, count: u32) -> Result<Items<u64>, JobError>
    requires { 8 * count < length (given_bytes (view job.now)) + 8 }
    ensures ok { IfOk result (λ words. IsFilled (given_bytes (view job.now)) count words) }
    ensures err { IfErr result (λ e. (e ≡ JobError.NoMemory) ⊎ IsFirst (bytes_faults Key.Bytes (text_of Key.Bytes (view job.now))) e) }
{
    let bytes = bytes_of(alloc, job, Key::Bytes)?;
    let words = fill_words(alloc, bytes.as_slice(), count)?;
    Ok(words)
}

/// The run job of a parsed text that gives bytes, or its first fault. All that is decided without memory is decided before any is
/// taken.
fn job_of_bytes(alloc: Global, job: &Value, m: &Module) -> Result<RunJob, JobError>
    ensures ok { IfOk result (λ j. IsJobWith (from_bytes (view job.now)) m.now (view job.now) j) }
    ensures room { IfOk result HasRoom }
    ensures err { IfErr result (λ e. (e ≡ JobError.NoMemory) ⊎ FirstFaultBy (faults_by None) m.now (view job.now) e) }
    ensures memory { result ≡ Err JobError.NoMemory → MayLackForBytes m.now (view job.now) }
{
    let tested = check_fields(job, m)?;
    check_names(alloc, job, FIELDS)?;
    let definition = definition_of(m, tested.entry);
    let stores = stores_of(alloc, job, tested.words)?;
    let words = words_of(alloc, job, tested.words)?;
    let args = values_of(alloc, job, Key::Args, params_of(definition))?;
    let cells = values_of(alloc, job, Key::Cells, cells_of(definition))?;
    // last, as each way through its variants, where it is let go, is a way through the function
    let layout = layout_of(alloc, job, tested.given, tested.length)?;
    Ok(RunJob {
        entry: tested.entry,
        args,
        cells,
        words,
        length: tested.length,
        layout,
        stores,
        written: None,
    })
}

/// The run job of a parsed text, or its first fault. What is decided without memory is decided before any is taken; what is wrong
/// with a value is found by writing it.
fn job_of(alloc: Global, job: &Value, m: &Module) -> Result<RunJob, JobError>
    requires { IsWritable m.now }
    ensures ok { IfOk result (λ j. IsJob m.now (view job.now) j) }
    ensures room { IfOk result HasRoom }
    ensures err { IfErr result (λ e. (e ≡ JobError.NoMemory) ⊎ FirstFault m.now (view job.now) e) }
    ensures memory { result ≡ Err JobError.NoMemory → MayLackMemory m.now (view job.now) }
{
    match field_of(job, Key::Value) {
        None => job_of_bytes(alloc, job, m),
        Some(value) => job_of_value(alloc, job, value, m),
    }
}

/// The run job that the bytes stand for, or their first fault.
fn parsed_job(alloc: Global, bytes: &[u8], m: &Module) -> Result<RunJob, JobError>
    requires { IsWritable m.now }
    ensures job { IfOk result (λ j. IsRunJob bytes.now m.now j) }
    ensures room { IfOk result HasRoom }
    ensures refused { IfErr result (λ e. (e ≡ JobError.NoMemory) ⊎ RefusedJob bytes.now m.now e) }
    ensures memory { result ≡ Err JobError.NoMemory → 0 < length bytes.now }
{
    let job = read_json(alloc, bytes)?;
    let answer = job_of(alloc, &job, m);
    // by a call, as each way through its variants, where it is let go, is a way through the function
    drop(job);
    answer
}

/// The run job that the bytes stand for. J1 to J8, J10: their first fault, each exactly where the definition says so.
/// `NoMemory`: there was no memory for it; never where there are no bytes. The module is one that a value can be written by, as each is
/// that a text stands for.
pub fn read_run_job(alloc: Global, bytes: &[u8], m: &Module) -> Result<RunJob, JobError>
    requires { IsWritable m.now }
    ensures job { IfOk result (λ j. IsRunJob bytes.now m.now j) }
    ensures room { IfOk result HasRoom }
    ensures entry { IfOk result (λ j. j.entry.number < length m.now.entries) }
    ensures values { IfOk result (λ j. HasValues m.now j) }
    ensures complete { (j : RunJob) → IsRunJob bytes.now m.now j → MatchResult result (λ found. found ≡ j) (λ e. e ≡ JobError.NoMemory) }
    ensures refused { IfErr result (λ e. (e ≡ JobError.NoMemory) ⊎ RefusedJob bytes.now m.now e) }
    ensures exact { (e : JobError) → RefusedJob bytes.now m.now e → (result ≡ Err e) ⊎ (result ≡ Err JobError.NoMemory) }
    ensures memory { result ≡ Err JobError.NoMemory → 0 < length bytes.now }
{
    parsed_job(alloc, bytes, m)
}
