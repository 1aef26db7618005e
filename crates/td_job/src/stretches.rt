//! The stretches of a job.

ghost use Rattle.std.specs.Prelude.{◌≡◌, ◌≢◌, ℕ, ◌+◌, ◌<◌, ◌≤◌, ◌^◌, [], ◌∷◌, ◌⊎◌, Err, Some, length as size_of, nat_lt, IfOk, IfErr, OnErr, option_map};
ghost use Rattle.serde_json.specs.Find.{as_array};
ghost use Rattle.serde_json.specs.View.{view, items_view};
ghost use Rattle.td_stream.specs.Layouts.{length_in};
ghost use Rattle.td_job.specs.Fields.{field_of, IsFirst};
ghost use Rattle.td_job.specs.Stretches.{spelled_stretch, stretch_faults, stretch_of, each_stretch, each_stretch_faults, layout_faults, stretches_faults, given_layout, is_past, words_by};

use crate::error::{JobError, JobRule, Key, Path};
use crate::json::field_of;
use serde_json::Value;
use std::alloc::Global;
use td_num::items::Items;
use td_stream::layout::{Layout, MOST_STRETCHES};
use td_stream::stretch::Stretch;

/// The two parts of a stretch, as a job spells them.
#[derive(Clone, Copy)]
pub struct SpelledStretch {
    /// The place of its first byte in the bytes given, from 0.
    pub place: u64,
    /// How many bytes it has.
    pub size: u64,
}

/// The parts of a stretch. None: the value is no list of exactly two whole numbers.
pub fn spelled_stretch(value: &Value) -> Option<SpelledStretch>
    ensures { option_map (λ s. record { place = s.place; size = s.size }) result ≡ spelled_stretch (view value.now) }
{
    let [place, size] = value.as_array()?.as_slice() else {
        return None;
    };
    Some(SpelledStretch {
        place: place.as_u64()?,
        size: size.as_u64()?,
    })
}

/// Whether a length passes the bytes given. Where a job has stretches none does.
pub(crate) fn is_past(job: &Value, given: usize, length: u64) -> bool
    ensures { result ≡ is_past (field_of Key.Stretches (view job.now)) given length }
{
    match field_of(job, Key::Stretches) {
        None => length > given as u64,
        Some(_) => false,
    }
}

/// Whether a stretch passes the end of so many bytes.
fn passes(spelled: SpelledStretch, given: u32) -> bool
    ensures { result ≡ nat_lt given (spelled.place + spelled.size) }
{
    let given = u64::from(given);
    spelled.place > given || spelled.size > given - spelled.place
}

/// The stretch of an element of the list, in so many bytes given. J2: the element has another form. J7: it passes the bytes
/// given. Takes no memory.
fn stretch_of(value: &Value, index: usize, given: u32) -> Result<Stretch, JobError>
    ensures ok { IfOk result (λ s. (stretch_faults given (Path.Element Key.Stretches index) (spelled_stretch (view value.now)) ≡ []) × (stretch_of (spelled_stretch (view value.now)) ≡ s ∷ [])) }
    ensures err { IfErr result (λ e. IsFirst (stretch_faults given (Path.Element Key.Stretches index) (spelled_stretch (view value.now))) e) }
    ensures broken { IfErr result (λ e. e ≢ JobError.NoMemory) }
{
    let Some(spelled) = spelled_stretch(value) else {
        return Err(JobRule::Form.at_element(Key::Stretches, index));
    };
    if passes(spelled, given) {
        return Err(JobRule::PastBytes.at_element(Key::Stretches, index));
    }
    Ok(Stretch {
        place: spelled.place as u32,
        size: spelled.size as u32,
    })
}

/// Tests the elements of a list one by one, as stretches of so many bytes given, and gives the sum of their sizes.
fn check_each_stretch(values: &[Value], given: u32) -> Result<u64, JobError>
    requires { size_of values.now ≤ MOST_STRETCHES }
    ensures ok { IfOk result (λ sum. (each_stretch_faults given 0 (items_view values.now) ≡ []) × (length_in (each_stretch (items_view values.now)) ≡ sum)) }
    ensures err { IfErr result (λ e. IsFirst (each_stretch_faults given 0 (items_view values.now)) e) }
    ensures broken { IfErr result (λ e. e ≢ JobError.NoMemory) }
{
    let mut sum = 0;
    for (index, value) in values.iter().enumerate() {
        let stretch = stretch_of(value, index, given)?;
        sum += u64::from(stretch.size);
    }
    Ok(sum)
}

/// The stretches of a list's elements, in so many bytes given, or the first fault of these.
fn each_stretch(alloc: Global, values: &[Value], given: u32) -> Result<Items<Stretch>, JobError>
    ensures ok { IfOk result (λ stretches. stretches ≡ each_stretch (items_view values.now)) }
    ensures err { IfErr result (λ e. (e ≡ JobError.NoMemory) ⊎ IsFirst (each_stretch_faults given 0 (items_view values.now)) e) }
{
    let mut stretches = Items::new(alloc);
    for (index, value) in values.iter().enumerate() {
        let stretch = stretch_of(value, index, given)?;
        stretches.push(stretch)?;
    }
    Ok(stretches)
}

/// The elements of a list of stretches. J2: it is no list. J8: it has more than 64 elements. Takes no memory.
fn listed_stretches(value: &Value) -> Result<&[Value], JobError>
    ensures ok { IfOk result (λ values. as_array (view value.now) ≡ Some (items_view values.now)) }
    ensures few { IfOk result (λ values. size_of values.now ≤ MOST_STRETCHES) }
    ensures err { IfErr result (λ e. (given n : ℕ) → IsFirst (layout_faults given n (as_array (view value.now))) e) }
    ensures broken { IfErr result (λ e. e ≢ JobError.NoMemory) }
{
    match value.as_array() {
        None => Err(JobRule::Form.at(Path::Whole(Key::Stretches))),
        Some(values) => if values.len() > MOST_STRETCHES {
            Err(JobRule::Limit.at(Path::Whole(Key::Stretches)))
        } else {
            Ok(values.as_slice())
        },
    }
}

/// Tests a list of stretches of so many bytes given, for a message of this length, and gives its elements. J2: it is no list, or
/// an element has another form. J7: an element passes the bytes given, or the sizes don't add up to the length. J8: it has more
/// than 64 elements. Takes no memory.
fn check_layout(value: &Value, given: u32, length: u32) -> Result<&[Value], JobError>
    ensures ok { IfOk result (λ values. as_array (view value.now) ≡ Some (items_view values.now)) }
    ensures few { IfOk result (λ values. size_of values.now ≤ MOST_STRETCHES) }
    ensures faultless { IfOk result (λ _. layout_faults given length (as_array (view value.now)) ≡ []) }
    ensures each { IfOk result (λ values. each_stretch_faults given 0 (items_view values.now) ≡ []) }
    ensures long { IfOk result (λ values. length_in (each_stretch (items_view values.now)) ≡ length) }
    ensures err { IfErr result (λ e. IsFirst (layout_faults given length (as_array (view value.now))) e) }
    ensures broken { IfErr result (λ e. e ≢ JobError.NoMemory) }
{
    let values = listed_stretches(value)?;
    let sum = check_each_stretch(values, given)?;
    if sum != u64::from(length) {
        return Err(JobRule::PastBytes.at(Path::Whole(Key::Stretches)));
    }
    Ok(values)
}

/// A count in 32 bits. `NoMemory`: it has more, so that what is counted finds no memory.
pub fn small_count(count: usize) -> Result<u32, JobError>
    ensures ok { IfOk result (λ n. n ≡ count) }
    ensures err { IfErr result (λ e. e ≡ JobError.NoMemory) }
    ensures full { OnErr result (2 ^ 32 ≤ count) }
{
    if count > u32::MAX as usize {
        return Err(JobError::NoMemory);
    }
    Ok(count as u32)
}

/// Tests the stretches that a job has in so many bytes given, for a message of this length, and gives the count of the job's words.
/// J2: `stretches` is no list, or an element has another form. J7: an element passes the bytes given, or the sizes don't add up
/// to the length. J8: the list has more than 64 elements. `NoMemory`: there are stretches, and 2^32 bytes or more. Takes no memory.
pub(crate) fn check_stretches(job: &Value, given: usize, length: u32) -> Result<u32, JobError>
    ensures ok { IfOk result (λ _. stretches_faults given (Some length) (field_of Key.Stretches (view job.now)) ≡ []) }
    ensures words { IfOk result (λ words. words_by (field_of Key.Stretches (view job.now)) given (Some length) ≡ words) }
    ensures err { IfErr result (λ e. (e ≡ JobError.NoMemory) ⊎ IsFirst (stretches_faults given (Some length) (field_of Key.Stretches (view job.now))) e) }
    ensures memory { result ≡ Err JobError.NoMemory → 2 ^ 32 ≤ given }
{
    let Some(value) = field_of(job, Key::Stretches) else {
        return Ok(length.div_ceil(8));
    };
    let given = small_count(given)?;
    check_layout(value, given, length)?;
    Ok(given.div_ceil(8))
}

/// The layout that a list of stretches of so many bytes given is, for a message of this length. J2, J7, J8: as `check_layout`.
fn listed_layout(alloc: Global, value: &Value, given: u32, length: u32) -> Result<Layout, JobError>
    ensures ok { IfOk result (λ layout. option_map each_stretch (as_array (view value.now)) ≡ Some layout) }
    ensures err { IfErr result (λ e. (e ≡ JobError.NoMemory) ⊎ IsFirst (layout_faults given length (as_array (view value.now))) e) }
{
    let values = check_layout(value, given, length)?;
    let stretches = each_stretch(alloc, values, given)?;
    let layout = Layout::of(alloc, stretches.as_slice())?;
    Ok(layout)
}

/// How the message of a job lies in so many bytes given, where the job says that, for a message of this length. J2, J7, J8: as
/// `check_stretches`.
pub(crate) fn layout_of(
    alloc: Global,
    job: &Value,
    given: usize,
    length: u32,
) -> Result<Option<Layout>, JobError>
    ensures ok { IfOk result (λ layout. layout ≡ given_layout (view job.now)) }
    ensures err { IfErr result (λ e. (e ≡ JobError.NoMemory) ⊎ IsFirst (stretches_faults given (Some length) (field_of Key.Stretches (view job.now))) e) }
{
    let Some(value) = field_of(job, Key::Stretches) else {
        return Ok(None);
    };
    let given = small_count(given)?;
    let layout = listed_layout(alloc, value, given, length)?;
    Ok(Some(layout))
}
