//! Posts of messages that are lists of stretches.

ghost use Rattle.std.specs.Prelude.{◌≡◌, ◌≢◌, ◌-◌, ◌^◌, ◌≤◌, ◌||◌, [], ◌∷◌, ◌⊎◌, min, nat_lt, length, Err, OnOk, OnErr, IfOk, IfErr};
ghost use Rattle.serde_json.specs.View.{view, items_view};
ghost use Rattle.td_job.specs.declared.error.Path.TheVariants as path;
ghost use Rattle.td_job.specs.Fields.{IsFirst};
ghost use Rattle.td_stream.specs.Layouts.{words_in, length_in};
ghost use Rattle.td_job.specs.Stretches.{spelled_stretch, stretch_of, each_stretch};
ghost use Rattle.td_job_host.specs.Steps.{are_stretches, are_within, scatter_faults, scatter_in};
ghost use Rattle.td_job_host.specs.Scatter.{measured};

use crate::steps::StepAt;
use serde_json::Value;
use std::alloc::Global;
use td_job::checks::MOST_BYTES;
use td_job::error::{JobError, JobRule};
use td_job::stretches::{SpelledStretch, spelled_stretch};
use td_num::items::Items;
use td_posts::job::Step;
use td_stream::layout::{Layout, MOST_STRETCHES};
use td_stream::stretch::Stretch;

/// Whether each value spells a stretch.
pub(crate) fn are_stretches(values: &[Value]) -> bool
    ensures { result ≡ are_stretches (items_view values.now) }
{
    for value in values {
        if spelled_stretch(value).is_none() {
            return false;
        }
    }
    true
}

/// Whether the stretch that a value spells is within so many words; so is none.
fn is_within(value: &Value, words: u32) -> bool
    ensures { result ≡ are_within words (stretch_of (spelled_stretch (view value.now))) }
{
    let end = 8 * u64::from(words);
    match spelled_stretch(value) {
        None => true,
        Some(stretch) => stretch.size <= end && stretch.place <= end - stretch.size,
    }
}

/// Whether each stretch that these values spell is within so many words.
fn are_within(values: &[Value], words: u32) -> bool
    ensures { result ≡ are_within words (each_stretch (items_view values.now)) }
{
    for value in values {
        if !is_within(value, words) {
            return false;
        }
    }
    true
}

/// How many words hold a byte of a stretch.
fn words_for(stretch: SpelledStretch) -> u64
    ensures { result ≡ words_in (record { place = stretch.place; size = stretch.size }) }
{
    if stretch.size == 0 {
        return 0;
    }
    let last = stretch.size - 1;
    last / 8 + (stretch.place % 8 + last % 8) / 8 + 1
}

/// What is counted over the stretches of a message.
#[derive(Clone, Copy)]
pub(crate) enum Measure {
    Stretches,
    Bytes,
    Words,
}

impl Measure {
    /// By how much the stretch that a value spells counts; none counts nothing.
    fn of(self, value: &Value) -> u64
        ensures { result ≡ measured self (stretch_of (spelled_stretch (view value.now))) }
    {
        match (self, spelled_stretch(value)) {
            (_, None) => 0,
            (Measure::Stretches, Some(_)) => 1,
            (Measure::Bytes, Some(stretch)) => stretch.size,
            (Measure::Words, Some(stretch)) => words_for(stretch),
        }
    }

    /// What is counted over the stretches that these values spell; at most 2^64 - 1.
    pub(crate) fn over(self, values: &[Value]) -> u64
        ensures { result ≡ min (measured self (each_stretch (items_view values.now))) (2 ^ 64 - 1) }
    {
        let mut sum = 0u64;
        for value in values {
            sum = sum.saturating_add(self.of(value));
        }
        sum
    }
}

/// Whether there are more stretches, or more bytes in them, than a message has.
fn is_past_limit(values: &[Value]) -> bool
    ensures { result ≡ (nat_lt MOST_STRETCHES (length (each_stretch (items_view values.now))) || nat_lt MOST_BYTES (length_in (each_stretch (items_view values.now)))) }
{
    Measure::Stretches.over(values) > MOST_STRETCHES as u64
        || Measure::Bytes.over(values) > MOST_BYTES
}

/// Tests a post of a message of the stretches that these values spell, in a buffer of so many words, at this place of the job. J7:
/// a stretch passes the end of the buffer. J8: there are more than 64 stretches, or more than 1,048,576 bytes. Takes no memory.
pub(crate) fn check_scatter(values: &[Value], place: StepAt, words: u32) -> Result<(), JobError>
    ensures ok { OnOk result (scatter_faults words (path.Step place.guest place.index) (each_stretch (items_view values.now)) ≡ []) }
    ensures err { IfErr result (IsFirst (scatter_faults words (path.Step place.guest place.index) (each_stretch (items_view values.now)))) }
    ensures broken { IfErr result (λ e. e ≢ JobError.NoMemory) }
{
    if !are_within(values, words) {
        Err(place.fault(JobRule::PastBytes))
    } else if is_past_limit(values) {
        Err(place.fault(JobRule::Limit))
    } else {
        Ok(())
    }
}

/// A number of 32 bits. `NoMemory`: it has more, so that what it counts finds no memory.
fn small(number: u64) -> Result<u32, JobError>
    ensures ok { IfOk result (λ n. n ≡ number) }
    ensures err { IfErr result (λ e. e ≡ JobError.NoMemory) }
    ensures full { OnErr result (2 ^ 32 ≤ number) }
{
    if number > u64::from(u32::MAX) {
        return Err(JobError::NoMemory);
    }
    Ok(number as u32)
}

/// The stretches that these values spell. `NoMemory`: there was no memory for them, or one has a place or a size of more than 32
/// bits.
fn stretches_of(alloc: Global, values: &[Value]) -> Result<Items<Stretch>, JobError>
    ensures ok { IfOk result (λ stretches. stretches ≡ each_stretch (items_view values.now)) }
    ensures err { IfErr result (λ e. e ≡ JobError.NoMemory) }
{
    let mut stretches = Items::new(alloc);
    for value in values {
        if let Some(stretch) = spelled_stretch(value) {
            stretches.push(Stretch {
                place: small(stretch.place)?,
                size: small(stretch.size)?,
            })?;
        }
    }
    Ok(stretches)
}

/// A post of a message of the stretches that these values spell, in a buffer of so many words, at this place of the job. J7, J8: as
/// `check_scatter`. `NoMemory`: there is no fault, and there was no memory for the stretches; or a place has more than 32 bits, which
/// one in a buffer of fewer than 2^32 bytes has not.
pub(crate) fn scatter_of(
    alloc: Global,
    values: &[Value],
    place: StepAt,
    words: u32,
) -> Result<Step, JobError>
    ensures ok { IfOk result (λ s. (scatter_faults words (path.Step place.guest place.index) (each_stretch (items_view values.now)) ≡ []) × (scatter_in (each_stretch (items_view values.now)) ≡ s ∷ [])) }
    ensures err { IfErr result (λ e. (e ≡ JobError.NoMemory) ⊎ IsFirst (scatter_faults words (path.Step place.guest place.index) (each_stretch (items_view values.now))) e) }
    ensures memory { result ≡ Err JobError.NoMemory → scatter_faults words (path.Step place.guest place.index) (each_stretch (items_view values.now)) ≡ [] }
{
    check_scatter(values, place, words)?;
    let stretches = stretches_of(alloc, values)?;
    let layout = Layout::of(alloc, stretches.as_slice())?;
    Ok(Step::Scatter { layout })
}
