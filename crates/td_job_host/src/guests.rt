//! The guests and workers of a host job.

ghost use Rattle.std.specs.Prelude.{◌≡◌, ◌≢◌, ◌<◌, ◌||◌, ℕ, [], ◌∷◌, ◌⊎◌, length, Err, IsOk, OnOk, IfOk, IfErr, IsSomeAnd, nat_eq, nat_lt, option_map};
ghost use Rattle.serde_json.specs.Find.{as_object};
ghost use Rattle.serde_json.specs.View.{view, items_view};
ghost use Rattle.td_job.specs.Fields.{field_of, number_of, IsFirst};
ghost use Rattle.td_job.specs.Jobs.{first_unknown, unknown_faults};
ghost use Rattle.td_job_host.specs.Guests.{listed_in, script_faults, given_script, guest_faults, each_guest_faults, each_script, guests_faults, given_guests, workers_faults, BeginsWithName};

use crate::steps::{check_each_step, steps_of};
use serde_json::Value;
use std::alloc::Global;
use td_job::checks::unknown_name;
use td_job::error::{JobError, JobRule, Key, Path};
use td_job::json::{field_of, number_of};
use td_num::items::Items;
use td_num::text::Text;
use td_posts::job::Step;
use td_posts::limits::{MOST_GUESTS, MOST_WORKERS};

/// The elements of a field that is a list. None: it is missing or no list.
pub(crate) fn listed<'a>(value: &'a Value, key: Key) -> Option<&'a [Value]>
    ensures { option_map (λ values. items_view values.now) result ≡ listed_in key (view value.now) }
{
    let values = field_of(value, key)?.as_array()?;
    Some(values.as_slice())
}

/// Tests the script of a guest, for a buffer of so many words. J2: `script` is missing or no list. J2, J5 to J8: a step is at
/// fault. Takes no memory.
fn check_script(value: &Value, guest: usize, words: u32) -> Result<(), JobError>
    ensures ok { OnOk result (script_faults words guest (listed_in Key.Script (view value.now)) ≡ []) }
    ensures err { IfErr result (IsFirst (script_faults words guest (listed_in Key.Script (view value.now)))) }
    ensures broken { IfErr result (λ e. e ≢ JobError.NoMemory) }
{
    match listed(value, Key::Script) {
        None => Err(JobRule::Form.at(Path::Script { guest })),
        Some(values) => check_each_step(values, guest, words),
    }
}

/// The script of a guest, for a buffer of so many words. J2: `script` is missing or no list. J2, J5 to J8: a step is at
/// fault. `NoMemory`: none is, and there was no memory for them.
fn script_of(
    alloc: Global,
    value: &Value,
    guest: usize,
    words: u32,
) -> Result<Items<Step>, JobError>
    ensures ok { IfOk result (λ steps. (script_faults words guest (listed_in Key.Script (view value.now)) ≡ []) × (steps ≡ given_script (view value.now))) }
    ensures err { IfErr result (λ e. (e ≡ JobError.NoMemory) ⊎ IsFirst (script_faults words guest (listed_in Key.Script (view value.now))) e) }
    ensures memory { result ≡ Err JobError.NoMemory → script_faults words guest (listed_in Key.Script (view value.now)) ≡ [] }
{
    match listed(value, Key::Script) {
        None => Err(JobRule::Form.at(Path::Script { guest })),
        Some(values) => steps_of(alloc, values, guest, words),
    }
}

/// Tests that a guest has no field but its script. J2, at the first other name in byte order. `NoMemory`: there was no memory
/// for that name; never where there is no other, nor where the first one has no bytes.
fn check_guest_names(alloc: Global, value: &Value, guest: usize) -> Result<(), JobError>
    ensures ok { OnOk result (unknown_faults (Path.UnknownOf guest) (first_unknown (Key.Script ∷ []) (as_object (view value.now))) ≡ []) }
    ensures err { IfErr result (λ e. (e ≡ JobError.NoMemory) ⊎ IsFirst (unknown_faults (Path.UnknownOf guest) (first_unknown (Key.Script ∷ []) (as_object (view value.now)))) e) }
    ensures known { unknown_faults (Path.UnknownOf guest) (first_unknown (Key.Script ∷ []) (as_object (view value.now))) ≡ [] → IsOk result }
    ensures memory { result ≡ Err JobError.NoMemory → IsSomeAnd (first_unknown (Key.Script ∷ []) (as_object (view value.now))) (λ name. 0 < length name) }
{
    let Some(name) = unknown_name(value, &[Key::Script]) else {
        return Ok(());
    };
    let name = Text::copy_of(alloc, name.as_bytes())?;
    Err(JobRule::Form.at(Path::UnknownOf { guest, name }))
}

/// Tests a guest, for a buffer of so many words. J2: the guest is no object, or has a field but `script`. Else as its script is
/// at fault, which comes before the other fields. `NoMemory`: there was no memory for the name of that other field, which is
/// all that takes any.
fn check_guest(alloc: Global, value: &Value, guest: usize, words: u32) -> Result<(), JobError>
    ensures ok { OnOk result (guest_faults words guest (view value.now) ≡ []) }
    ensures err { IfErr result (λ e. (e ≡ JobError.NoMemory) ⊎ IsFirst (guest_faults words guest (view value.now)) e) }
    ensures memory { result ≡ Err JobError.NoMemory → BeginsWithName (guest_faults words guest (view value.now)) }
{
    if value.as_object().is_none() {
        return Err(JobRule::Form.at_element(Key::Guests, guest));
    }
    check_script(value, guest, words)?;
    check_guest_names(alloc, value, guest)?;
    Ok(())
}

/// Tests guests one by one, for a buffer of so many words. The first fault of these. `NoMemory`: that is a field of another
/// name, and there was no memory for the name.
pub(crate) fn check_each_guest(alloc: Global, values: &[Value], words: u32) -> Result<(), JobError>
    ensures ok { OnOk result (each_guest_faults words 0 (items_view values.now) ≡ []) }
    ensures err { IfErr result (λ e. (e ≡ JobError.NoMemory) ⊎ IsFirst (each_guest_faults words 0 (items_view values.now)) e) }
    ensures memory { result ≡ Err JobError.NoMemory → BeginsWithName (each_guest_faults words 0 (items_view values.now)) }
{
    for (guest, value) in values.iter().enumerate() {
        check_guest(alloc, value, guest, words)?;
    }
    Ok(())
}

/// A guest's script, for a buffer of so many words. J2: the guest is no object, or has a field but `script`. Else as its
/// script is at fault, which comes before the other fields.
fn guest_of(alloc: Global, value: &Value, guest: usize, words: u32) -> Result<Items<Step>, JobError>
    ensures ok { IfOk result (λ steps. (guest_faults words guest (view value.now) ≡ []) × (steps ≡ given_script (view value.now))) }
    ensures err { IfErr result (λ e. (e ≡ JobError.NoMemory) ⊎ IsFirst (guest_faults words guest (view value.now)) e) }
{
    check_guest(alloc, value, guest, words)?;
    let script = script_of(alloc, value, guest, words)?;
    Ok(script)
}

/// The scripts of guests, for a buffer of so many words, or the first fault of these.
fn scripts_of(alloc: Global, values: &[Value], words: u32) -> Result<Items<Items<Step>>, JobError>
    ensures ok { IfOk result (λ scripts. (each_guest_faults words 0 (items_view values.now) ≡ []) × (scripts ≡ each_script (items_view values.now))) }
    ensures err { IfErr result (λ e. (e ≡ JobError.NoMemory) ⊎ IsFirst (each_guest_faults words 0 (items_view values.now)) e) }
{
    let mut scripts = Items::new(alloc);
    for (guest, value) in values.iter().enumerate() {
        let script = guest_of(alloc, value, guest, words)?;
        scripts.push(script)?;
    }
    Ok(scripts)
}

/// Whether there are no guests, or too many.
fn is_past_limit(count: usize) -> bool
    ensures { result ≡ (nat_eq count 0 || nat_lt MOST_GUESTS count) }
{
    count == 0 || count > MOST_GUESTS
}

/// The elements of `guests`. J2: it is missing or no list. J8: it is empty, or has more than 16 elements. Takes no memory.
pub(crate) fn listed_guests(job: &Value) -> Result<&[Value], JobError>
    ensures ok { IfOk result (λ values. ((words : ℕ) → guests_faults words (listed_in Key.Guests (view job.now)) ≡ each_guest_faults words 0 (items_view values.now)) × (given_guests (view job.now) ≡ each_script (items_view values.now))) }
    ensures err { IfErr result (λ e. (words : ℕ) → IsFirst (guests_faults words (listed_in Key.Guests (view job.now))) e) }
    ensures broken { IfErr result (λ e. e ≢ JobError.NoMemory) }
{
    let Some(values) = listed(job, Key::Guests) else {
        return Err(JobRule::Form.at(Path::Whole(Key::Guests)));
    };
    if is_past_limit(values.len()) {
        Err(JobRule::Limit.at(Path::Whole(Key::Guests)))
    } else {
        Ok(values)
    }
}

/// The elements of `guests`; none where it is missing or no list.
pub(crate) fn spelled_guests(job: &Value) -> &[Value]
    ensures { given_guests (view job.now) ≡ each_script (items_view result.now) }
{
    match listed(job, Key::Guests) {
        None => &[],
        Some(values) => values,
    }
}

/// The scripts of a job's guests, for a buffer of so many words. J2: `guests` is missing or no list. J8: it is empty, or
/// has more than 16 elements. Else as the first guest that is at fault.
pub(crate) fn guests_of(
    alloc: Global,
    job: &Value,
    words: u32,
) -> Result<Items<Items<Step>>, JobError>
    ensures ok { IfOk result (λ scripts. (guests_faults words (listed_in Key.Guests (view job.now)) ≡ []) × (scripts ≡ given_guests (view job.now))) }
    ensures err { IfErr result (λ e. (e ≡ JobError.NoMemory) ⊎ IsFirst (guests_faults words (listed_in Key.Guests (view job.now))) e) }
{
    let values = listed_guests(job)?;
    scripts_of(alloc, values, words)
}

/// How many workers a job has. J2: `workers` is missing or no whole number. J8: it is 0 or passes 16. Takes no memory.
pub(crate) fn workers_of(job: &Value) -> Result<u32, JobError>
    ensures ok { IfOk result (λ n. (workers_faults (number_of Key.Workers (view job.now)) ≡ []) × (number_of Key.Workers (view job.now) ≡ Some n)) }
    ensures err { IfErr result (IsFirst (workers_faults (number_of Key.Workers (view job.now)))) }
    ensures broken { IfErr result (λ e. e ≢ JobError.NoMemory) }
{
    let Some(workers) = number_of(job, Key::Workers) else {
        return Err(JobRule::Form.at(Path::Whole(Key::Workers)));
    };
    if workers == 0 || workers > u64::from(MOST_WORKERS) {
        Err(JobRule::Limit.at(Path::Whole(Key::Workers)))
    } else {
        Ok(workers as u32)
    }
}
