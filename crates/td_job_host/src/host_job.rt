//! Host jobs.

ghost use Rattle.std.specs.Prelude.{◌≡◌, [], ◌∷◌, ◌⊎◌, ◌<◌, ◌≤◌, ◌*◌, ◌^◌, Err, Some, length, option_map, IfOk, IfErr, OnOk, OnErr, MatchResult};
ghost use Rattle.serde_json.specs.View.{view};
ghost use Rattle.td_core.specs.Entries.{entry_definition};
ghost use Rattle.td_core.specs.Formed.{cells_at};
ghost use Rattle.td_posts.specs.Servable.{IsServable};
ghost use Rattle.td_job.specs.Fields.{number_of, text_of};
ghost use Rattle.td_job.specs.Jobs.{bytes_faults};
ghost use Rattle.td_job.specs.Values.{given_args};
ghost use Rattle.td_job.specs.Words.{IsFilled};
ghost use Rattle.td_job_host.specs.Guests.{given_guests};
ghost use Rattle.td_job_host.specs.Rings.{given_rings};
ghost use Rattle.td_job_host.specs.HostJobs.{given_buffer, buffer_words, rooms_in, FirstFault, rest_faults, after_faults, AreSwapsOf, HasGoodFields, MayLackMemory, IsHost, IsHostJob, RefusedHostJob, HasHostValues, HasShortMessages};

use crate::copies::rooms_of;
use crate::fields::{check_after, check_first, check_rest};
use crate::guests::guests_of;
use crate::rings::rings_of;
use crate::swaps::{Versions, swaps_of};
use serde_json::Value;
use std::alloc::{AllocError, Global};
use td_core::module::{Entry, Module, TypeDef};
use td_front::laws::one_answer_each;
use td_job::checks::bytes_of;
use td_job::error::{JobError, Key};
use td_job::json::read_json;
use td_job::stretches::small_count;
use td_job::values::{cells_of, definition_of, params_of, values_of};
use td_job::words::fill_words;
use td_num::items::Items;
use td_posts::job::{HostJob, Step};
use td_posts::ring::RingJob;

/// Tests the fields of a job up to the elements of `swaps`, and gives its entry point, how many words its buffer has, and how many
/// workers it has. J2 to J8: its first fault. `NoMemory`: that is a field of another name of a guest or of a ring, and there was no
/// memory for the name; or the buffer has 2^32 words or more. Takes no other memory.
fn check_fields(alloc: Global, job: &Value, m: &Module) -> Result<(Entry, u32, u32), JobError>
    ensures good { IfOk result (λ x. HasGoodFields m.now (view job.now) x.0) }
    ensures rest { IfOk result (λ x. rest_faults (buffer_words (view job.now)) (view job.now) ≡ []) }
    ensures words { IfOk result (λ x. buffer_words (view job.now) ≡ x.1) }
    ensures workers { IfOk result (λ x. number_of Key.Workers (view job.now) ≡ Some x.2) }
    ensures err { IfErr result (λ e. (e ≡ JobError.NoMemory) ⊎ FirstFault m.now (view job.now) e) }
    ensures memory { result ≡ Err JobError.NoMemory → MayLackMemory m.now (view job.now) }
{
    let (entry, words, workers) = check_first(job, m)?;
    let count = small_count(words)?;
    check_rest(alloc, job, count)?;
    Ok((entry, count, workers))
}

/// What a job without a fault was found to have: its entry point, how many words its buffer has, how many workers there are, and
/// the versions that its swaps are.
#[derive(Drop)]
struct Tested {
    entry: Entry,
    words: u32,
    workers: u32,
    swaps: Versions,
}

/// Tests all fields of a job, and its totals. J2 to J9: its first fault. `NoMemory`: there was no memory for a name that is a fault,
/// for a swap, or for a buffer of 2^32 words or more. Takes no other memory.
fn test_job(alloc: Global, job: &Value, m: &Module) -> Result<Tested, JobError>
    ensures good { IfOk result (λ x. HasGoodFields m.now (view job.now) x.entry) }
    ensures rest { IfOk result (λ x. rest_faults (buffer_words (view job.now)) (view job.now) ≡ []) }
    ensures words { IfOk result (λ x. buffer_words (view job.now) ≡ x.words) }
    ensures workers { IfOk result (λ x. number_of Key.Workers (view job.now) ≡ Some x.workers) }
    ensures swaps { IfOk result (λ x. AreSwapsOf m.now (view job.now) x.entry x.swaps.formats.items x.swaps.entries.items) }
    ensures after { IfOk result (λ x. after_faults (entry_definition m.now x.entry.number) (view job.now) ≡ []) }
    ensures err { IfErr result (λ e. (e ≡ JobError.NoMemory) ⊎ FirstFault m.now (view job.now) e) }
    ensures memory { result ≡ Err JobError.NoMemory → MayLackMemory m.now (view job.now) }
{
    let (entry, words, workers) = check_fields(alloc, job, m)?;
    let swaps = swaps_of(alloc, job, m, entry)?;
    check_after(alloc, job, definition_of(m, entry))?;
    Ok(Tested {
        entry,
        words,
        workers,
        swaps,
    })
}

/// The modules of a job by version: its own, and then those of the swaps.
fn formats_of(alloc: Global, m: &Module, swaps: Vec<Module>) -> Result<Items<Module>, AllocError>
    ensures { IfOk result (λ formats. formats ≡ m.now ∷ swaps.items) }
{
    let mut swaps = swaps;
    let mut formats = Vec::new(alloc);
    formats.push(m.copy(alloc)?)?;
    formats.append(&mut swaps)?;
    Ok(Items::of(formats))
}

/// The entry points of a job by version: its own, and then those of the swaps.
fn entries_of(alloc: Global, entry: Entry, swaps: Vec<Entry>) -> Result<Items<Entry>, AllocError>
    ensures { IfOk result (λ entries. entries ≡ entry ∷ swaps.items) }
{
    let mut swaps = swaps;
    let mut entries = Vec::new(alloc);
    entries.push(entry)?;
    entries.append(&mut swaps)?;
    Ok(Items::of(entries))
}

/// How many words a buffer has with rings in it, at which its bytes are more than a number of 32 bits counts.
const RINGS_WORDS: u32 = 1 << 29;

/// Tests that a ring's reader can count the bytes of a buffer of so many words. `NoMemory`: it can't, so there is a ring, and for such a
/// buffer no memory.
fn check_bytes(rings: &Items<RingJob>, words: u32) -> Result<(), JobError>
    ensures ok { OnOk result (0 < length rings.now → 8 * words < 2 ^ 32) }
    ensures err { IfErr result (λ e. e ≡ JobError.NoMemory) }
    ensures full { OnErr result ((0 < length rings.now) × (2 ^ 32 ≤ 8 * words)) }
{
    if rings.as_slice().is_empty() || words < RINGS_WORDS {
        Ok(())
    } else {
        Err(JobError::NoMemory)
    }
}

/// The modules of a job by version, and their entry points.
#[derive(Drop)]
struct Served {
    formats: Items<Module>,
    entries: Items<Entry>,
}

/// The versions of a job: its own, and then those of the swaps. `AllocError`: there was no memory for them.
fn served_of(alloc: Global, m: &Module, entry: Entry, swaps: Versions) -> Result<Served, AllocError>
    ensures formats { IfOk result (λ s. s.formats ≡ m.now ∷ swaps.formats.items) }
    ensures entries { IfOk result (λ s. s.entries ≡ entry ∷ swaps.entries.items) }
{
    let Versions { formats, entries } = swaps;
    let formats = formats_of(alloc, m, formats)?;
    let entries = entries_of(alloc, entry, entries)?;
    Ok(Served { formats, entries })
}

/// What each validation of a job begins with: the arguments, the count of the cells, and the rooms of the copy buffers.
#[derive(Drop)]
struct Begins {
    args: Items<u64>,
    cells: u32,
    rooms: Items<u32>,
}

/// What each validation of a job begins with, from an entry point with this definition. `NoMemory`: there was no memory for it.
fn begins_of(alloc: Global, job: &Value, definition: Option<&TypeDef>) -> Result<Begins, JobError>
    ensures args { IfOk result (λ b. b.args ≡ given_args (option_map (λ d. d.now) definition.entry) (view job.now)) }
    ensures cells { IfOk result (λ b. b.cells ≡ length (cells_at (option_map (λ d. d.now) definition.entry))) }
    ensures rooms { IfOk result (λ b. b.rooms ≡ rooms_in (option_map (λ d. d.now) definition.entry)) }
    ensures err { IfErr result (λ e. e ≡ JobError.NoMemory) }
{
    let args = values_of(alloc, job, Key::Args, params_of(definition))?;
    let cells = small_count(cells_of(definition).len())?;
    let rooms = rooms_of(alloc, definition)?;
    Ok(Begins { args, cells, rooms })
}

/// What acts on a job's buffer.
#[derive(Drop)]
struct Actors {
    guests: Items<Items<Step>>,
    rings: Items<RingJob>,
}

/// The guests and the rings of a job that has no fault, for a buffer of so many words. `NoMemory`: there was no memory for them, or none
/// for a buffer of so many words with a ring.
fn actors_of(alloc: Global, job: &Value, words: u32) -> Result<Actors, JobError>
    requires { rest_faults words (view job.now) ≡ [] }
    ensures guests { IfOk result (λ a. a.guests ≡ given_guests (view job.now)) }
    ensures rings { IfOk result (λ a. a.rings ≡ given_rings (view job.now)) }
    ensures bytes { IfOk result (λ a. 0 < length a.rings → 8 * words < 2 ^ 32) }
    ensures err { IfErr result (λ e. e ≡ JobError.NoMemory) }
{
    let guests = guests_of(alloc, job, words)?;
    let rings = rings_of(alloc, job, words)?;
    check_bytes(&rings, words)?;
    Ok(Actors { guests, rings })
}

/// The words of a job's buffer, this many, where its text has no fault. `NoMemory`: there was no memory for them.
fn buffer_of(alloc: Global, job: &Value, words: u32) -> Result<Items<u64>, JobError>
    requires faultless { bytes_faults Key.Buffer (text_of Key.Buffer (view job.now)) ≡ [] }
    requires words { buffer_words (view job.now) ≡ words }
    ensures ok { IfOk result (λ filled. IsFilled (given_buffer (view job.now)) words filled) }
    ensures err { IfErr result (λ e. e ≡ JobError.NoMemory) }
{
    let bytes = bytes_of(alloc, job, Key::Buffer)?;
    let filled = fill_words(alloc, bytes.as_slice(), words)?;
    Ok(filled)
}

/// What each validation of a job without a fault begins with, from an entry point with this definition, what acts on its buffer, and the
/// buffer's words, this many. `NoMemory`: there was no memory for them, or none for a buffer of so many words with a ring.
fn parts_of(
    alloc: Global,
    job: &Value,
    definition: Option<&TypeDef>,
    words: u32,
) -> Result<(Begins, Actors, Items<u64>), JobError>
    requires rest { rest_faults words (view job.now) ≡ [] }
    requires faultless { bytes_faults Key.Buffer (text_of Key.Buffer (view job.now)) ≡ [] }
    requires words { buffer_words (view job.now) ≡ words }
    ensures args { IfOk result (λ x. x.0.args ≡ given_args (option_map (λ d. d.now) definition.entry) (view job.now)) }
    ensures cells { IfOk result (λ x. x.0.cells ≡ length (cells_at (option_map (λ d. d.now) definition.entry))) }
    ensures rooms { IfOk result (λ x. x.0.rooms ≡ rooms_in (option_map (λ d. d.now) definition.entry)) }
    ensures guests { IfOk result (λ x. x.1.guests ≡ given_guests (view job.now)) }
    ensures rings { IfOk result (λ x. x.1.rings ≡ given_rings (view job.now)) }
    ensures bytes { IfOk result (λ x. 0 < length x.1.rings → 8 * words < 2 ^ 32) }
    ensures filled { IfOk result (λ x. IsFilled (given_buffer (view job.now)) words x.2) }
    ensures err { IfErr result (λ e. e ≡ JobError.NoMemory) }
{
    let filled = buffer_of(alloc, job, words)?;
    let begins = begins_of(alloc, job, definition)?;
    match actors_of(alloc, job, words) {
        Ok(actors) => Ok((begins, actors, filled)),
        Err(error) => {
            drop(begins);
            drop(filled);
            Err(error)
        }
    }
}

/// The host job of a parsed text that was found to have no fault. `NoMemory`: there was no memory for it.
fn made_of(alloc: Global, job: &Value, m: &Module, tested: Tested) -> Result<HostJob, JobError>
    requires good { HasGoodFields m.now (view job.now) tested.entry }
    requires rest { rest_faults (buffer_words (view job.now)) (view job.now) ≡ [] }
    requires words { buffer_words (view job.now) ≡ tested.words }
    requires workers { number_of Key.Workers (view job.now) ≡ Some tested.workers }
    requires swaps { AreSwapsOf m.now (view job.now) tested.entry tested.swaps.formats.items tested.swaps.entries.items }
    requires after { after_faults (entry_definition m.now tested.entry.number) (view job.now) ≡ [] }
    ensures ok { IfOk result (λ j. IsHost m.now (view job.now) j) }
    ensures words { IfOk result (λ j. length j.words < 2 ^ 32) }
    ensures bytes { IfOk result (λ j. 0 < length j.rings → 8 * length j.words < 2 ^ 32) }
    ensures err { IfErr result (λ e. e ≡ JobError.NoMemory) }
{
    let Tested {
        entry,
        words,
        workers,
        swaps,
    } = tested;
    let served = served_of(alloc, m, entry, swaps)?;
    match parts_of(alloc, job, definition_of(m, entry), words) {
        Ok((begins, actors, filled)) => Ok(HostJob {
            formats: served.formats,
            entries: served.entries,
            args: begins.args,
            cells: begins.cells,
            rooms: begins.rooms,
            words: filled,
            workers,
            guests: actors.guests,
            rings: actors.rings,
        }),
        Err(error) => {
            drop(served);
            Err(error)
        }
    }
}

/// The host job of a parsed text, or its first fault. All that is decided without memory is decided before any is taken, swaps apart.
fn host_job_of(alloc: Global, job: &Value, m: &Module) -> Result<HostJob, JobError>
    ensures ok { IfOk result (λ j. IsHost m.now (view job.now) j) }
    ensures words { IfOk result (λ j. length j.words < 2 ^ 32) }
    ensures bytes { IfOk result (λ j. 0 < length j.rings → 8 * length j.words < 2 ^ 32) }
    ensures err { IfErr result (λ e. (e ≡ JobError.NoMemory) ⊎ FirstFault m.now (view job.now) e) }
    ensures memory { result ≡ Err JobError.NoMemory → MayLackMemory m.now (view job.now) }
{
    let found = test_job(alloc, job, m)?;
    made_of(alloc, job, m, found)
}

/// The host job that the bytes stand for, or their first fault.
fn parsed_host_job(alloc: Global, bytes: &[u8], m: &Module) -> Result<HostJob, JobError>
    ensures job { IfOk result (λ j. IsHostJob bytes.now m.now j) }
    ensures words { IfOk result (λ j. length j.words < 2 ^ 32) }
    ensures bytes { IfOk result (λ j. 0 < length j.rings → 8 * length j.words < 2 ^ 32) }
    ensures refused { IfErr result (λ e. (e ≡ JobError.NoMemory) ⊎ RefusedHostJob bytes.now m.now e) }
    ensures memory { result ≡ Err JobError.NoMemory → 0 < length bytes.now }
{
    let job = read_json(alloc, bytes)?;
    let answer = host_job_of(alloc, &job, m);
    // by a call, as each way through its variants, where it is let go, is a way through the function
    drop(job);
    answer
}

/// The host job that the bytes stand for, with a copy of the module. J1 to J9: their first fault, each exactly where the
/// definition says so. `NoMemory`: there was no memory for it (a buffer of 2^32 words or more has none, nor one of 2^29 words or more
/// with a ring); never where there are no bytes.
pub fn read_host_job(alloc: Global, bytes: &[u8], m: &Module) -> Result<HostJob, JobError>
    ensures job { IfOk result (λ j. IsHostJob bytes.now m.now j) }
    ensures servable { IfOk result IsServable }
    ensures values { IfOk result (HasHostValues m.now) }
    ensures short { IfOk result HasShortMessages }
    ensures complete { (j : HostJob) → IsHostJob bytes.now m.now j → MatchResult result (λ found. found ≡ j) (λ e. e ≡ JobError.NoMemory) }
    ensures refused { IfErr result (λ e. (e ≡ JobError.NoMemory) ⊎ RefusedHostJob bytes.now m.now e) }
    ensures exact { (e : JobError) → RefusedHostJob bytes.now m.now e → (result ≡ Err e) ⊎ (result ≡ Err JobError.NoMemory) }
    ensures memory { result ≡ Err JobError.NoMemory → 0 < length bytes.now }
{
    one_answer_each();
    parsed_host_job(alloc, bytes, m)
}
