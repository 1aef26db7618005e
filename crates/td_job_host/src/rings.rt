//! The rings of a host job.

ghost use Rattle.std.specs.Prelude.{◌≡◌, ◌≢◌, ◌<◌, ◌*◌, ◌-◌, ◌^◌, ℕ, [], ◌⊎◌, length, min, Err, IsOk, OnOk, IfOk, IfErr, IsSomeAnd};
ghost use Rattle.serde_json.specs.Find.{as_object};
ghost use Rattle.serde_json.specs.View.{view, items_view};
ghost use Rattle.td_job.specs.Fields.{field_of, number_of, IsFirst};
ghost use Rattle.td_job.specs.Jobs.{first_unknown, unknown_faults};
ghost use Rattle.td_posts.specs.Servable.{ring_message_words};
ghost use Rattle.td_job_host.specs.Guests.{BeginsWithName};
ghost use Rattle.td_job_host.specs.Rings.{ring_keys, field_faults, fields_faults, or_zero, given_ring, ring_in, is_past, is_past_limit, place_faults, ring_faults, each_ring_faults, rings_faults, each_ring, given_rings};

use crate::guests::listed;
use serde_json::Value;
use std::alloc::Global;
use td_job::checks::unknown_name;
use td_job::error::{JobError, JobRule, Key, Path};
use td_job::json::{field_of, number_of};
use td_num::items::Items;
use td_num::text::Text;
use td_posts::limits::{MOST_ENTRIES, MOST_RING_MESSAGE, MOST_RINGS, MOST_TAKES};
use td_posts::ring::RingJob;

/// The fields of a ring.
const FIELDS: &[Key] = &[Key::Base, Key::Entries, Key::Most, Key::Takes];

/// A ring as a job spells it.
#[derive(Clone, Copy)]
pub(crate) struct SpelledRing {
    pub base: u64,
    pub entries: u64,
    pub most: u64,
    pub takes: u64,
}

/// A number of a ring. 0: the field is missing or no whole number.
fn number_or_zero(value: &Value, key: Key) -> u64
    ensures { result ≡ or_zero (number_of key (view value.now)) }
{
    match number_of(value, key) {
        None => 0,
        Some(number) => number,
    }
}

/// The numbers of a ring, each 0 where its field is missing or no whole number.
fn spelled_ring(value: &Value) -> SpelledRing
    ensures { given_ring (view value.now) ≡ ring_in result }
{
    SpelledRing {
        base: number_or_zero(value, Key::Base),
        entries: number_or_zero(value, Key::Entries),
        most: number_or_zero(value, Key::Most),
        takes: number_or_zero(value, Key::Takes),
    }
}

/// How many words the messages of a ring's takes can have; at most 2^64 - 1.
pub(crate) fn message_words(value: &Value) -> u64
    ensures { result ≡ min (ring_message_words (given_ring (view value.now))) (2 ^ 64 - 1) }
{
    let ring = spelled_ring(value);
    ring.takes.saturating_mul(ring.most / 8 + 2)
}

/// How many bytes the copy buffers of a ring's takes have, where those of one take have so many; at most 2^64 - 1.
pub(crate) fn copied_bytes(value: &Value, room: u64) -> u64
    ensures { result ≡ min ((given_ring (view value.now)).takes * room) (2 ^ 64 - 1) }
{
    spelled_ring(value).takes.saturating_mul(room)
}

/// Tests a field of a ring. J2: it is missing or no whole number.
fn check_field(value: &Value, ring: usize, key: Key) -> Result<(), JobError>
    ensures ok { OnOk result (field_faults ring key (view value.now) ≡ []) }
    ensures err { IfErr result (IsFirst (field_faults ring key (view value.now))) }
    ensures broken { IfErr result (λ e. e ≢ JobError.NoMemory) }
{
    match number_of(value, key) {
        None => Err(JobRule::Form.at(Path::RingField { ring, key })),
        Some(_) => Ok(()),
    }
}

/// Tests the fields of a ring one by one. J2: the first that is missing or no whole number. Takes no memory.
fn check_fields(value: &Value, ring: usize) -> Result<(), JobError>
    ensures ok { OnOk result (fields_faults ring (view value.now) ≡ []) }
    ensures err { IfErr result (IsFirst (fields_faults ring (view value.now))) }
    ensures broken { IfErr result (λ e. e ≢ JobError.NoMemory) }
{
    check_field(value, ring, Key::Base)?;
    check_field(value, ring, Key::Entries)?;
    check_field(value, ring, Key::Most)?;
    check_field(value, ring, Key::Takes)
}

/// Tests that a ring has no other field. J2, at the first other name in byte order. `NoMemory`: there was no memory for that name;
/// never where there is no other, nor where the first one has no bytes.
fn check_ring_names(alloc: Global, value: &Value, ring: usize) -> Result<(), JobError>
    ensures ok { OnOk result (unknown_faults (Path.UnknownOfRing ring) (first_unknown ring_keys (as_object (view value.now))) ≡ []) }
    ensures err { IfErr result (λ e. (e ≡ JobError.NoMemory) ⊎ IsFirst (unknown_faults (Path.UnknownOfRing ring) (first_unknown ring_keys (as_object (view value.now)))) e) }
    ensures known { unknown_faults (Path.UnknownOfRing ring) (first_unknown ring_keys (as_object (view value.now))) ≡ [] → IsOk result }
    ensures memory { result ≡ Err JobError.NoMemory → IsSomeAnd (first_unknown ring_keys (as_object (view value.now))) (λ name. 0 < length name) }
{
    let Some(name) = unknown_name(value, FIELDS) else {
        return Ok(());
    };
    let name = Text::copy_of(alloc, name.as_bytes())?;
    Err(JobRule::Form.at(Path::UnknownOfRing { ring, name }))
}

impl SpelledRing {
    /// Whether it passes the end of a buffer of so many words.
    fn is_past(self, words: u32) -> bool
        ensures { result ≡ is_past words (ring_in self) }
    {
        let words = u64::from(words);
        self.base >= words || self.entries > (words - self.base - 1) / 2
    }

    /// Whether it has no entry, or more of something than it may have.
    fn is_past_limit(self) -> bool
        ensures { result ≡ is_past_limit (ring_in self) }
    {
        self.entries == 0
            || self.entries > u64::from(MOST_ENTRIES)
            || self.most > u64::from(MOST_RING_MESSAGE)
            || self.takes > u64::from(MOST_TAKES)
    }

    /// The ring, at this place of the list, in a buffer of so many words. J7: it passes the end of the buffer. J8: it has no entry, or
    /// more of something than it may have.
    fn placed(self, ring: usize, words: u32) -> Result<RingJob, JobError>
        ensures ok { IfOk result (λ r. (place_faults words (Path.Element Key.Rings ring) r ≡ []) × (r ≡ ring_in self)) }
        ensures err { IfErr result (IsFirst (place_faults words (Path.Element Key.Rings ring) (ring_in self))) }
        ensures broken { IfErr result (λ e. e ≢ JobError.NoMemory) }
    {
        if self.is_past(words) {
            return Err(JobRule::PastBytes.at_element(Key::Rings, ring));
        }
        if self.is_past_limit() {
            return Err(JobRule::Limit.at_element(Key::Rings, ring));
        }
        Ok(RingJob {
            base: self.base as u32,
            entries: self.entries as u32,
            most: self.most as u32,
            takes: self.takes as u32,
        })
    }
}

/// A ring, in a buffer of so many words. J2: it is no object, a field is missing or no whole number, or has another name. J7: it passes
/// the end of the buffer. J8: it has no entry, or more of something than it may have. `NoMemory`: there was no memory for the name of
/// another field, which is all that takes any.
fn ring_of(alloc: Global, value: &Value, ring: usize, words: u32) -> Result<RingJob, JobError>
    ensures ok { IfOk result (λ r. (ring_faults words ring (view value.now) ≡ []) × (r ≡ given_ring (view value.now))) }
    ensures err { IfErr result (λ e. (e ≡ JobError.NoMemory) ⊎ IsFirst (ring_faults words ring (view value.now)) e) }
    ensures memory { result ≡ Err JobError.NoMemory → BeginsWithName (ring_faults words ring (view value.now)) }
{
    if value.as_object().is_none() {
        return Err(JobRule::Form.at_element(Key::Rings, ring));
    }
    check_fields(value, ring)?;
    check_ring_names(alloc, value, ring)?;
    spelled_ring(value).placed(ring, words)
}

/// The elements of `rings`; none where it is left out. J2: it is no list. J8: it has more than 16 elements. Takes no memory.
pub(crate) fn listed_rings(job: &Value) -> Result<&[Value], JobError>
    ensures ok { IfOk result (λ values. ((words : ℕ) → rings_faults words (field_of Key.Rings (view job.now)) ≡ each_ring_faults words 0 (items_view values.now)) × (given_rings (view job.now) ≡ each_ring (items_view values.now))) }
    ensures err { IfErr result (λ e. (words : ℕ) → IsFirst (rings_faults words (field_of Key.Rings (view job.now))) e) }
    ensures broken { IfErr result (λ e. e ≢ JobError.NoMemory) }
{
    let Some(value) = field_of(job, Key::Rings) else {
        return Ok(&[]);
    };
    let Some(values) = value.as_array() else {
        return Err(JobRule::Form.at(Path::Whole(Key::Rings)));
    };
    if values.len() > MOST_RINGS {
        Err(JobRule::Limit.at(Path::Whole(Key::Rings)))
    } else {
        Ok(values.as_slice())
    }
}

/// Tests rings one by one, in a buffer of so many words: the first fault of these. `NoMemory`: that is a field of another name, and
/// there was no memory for the name.
pub(crate) fn check_each_ring(alloc: Global, values: &[Value], words: u32) -> Result<(), JobError>
    ensures ok { OnOk result (each_ring_faults words 0 (items_view values.now) ≡ []) }
    ensures err { IfErr result (λ e. (e ≡ JobError.NoMemory) ⊎ IsFirst (each_ring_faults words 0 (items_view values.now)) e) }
    ensures memory { result ≡ Err JobError.NoMemory → BeginsWithName (each_ring_faults words 0 (items_view values.now)) }
{
    for (ring, value) in values.iter().enumerate() {
        ring_of(alloc, value, ring, words)?;
    }
    Ok(())
}

/// The rings that these values spell, in a buffer of so many words, or the first fault of these.
fn each_ring(alloc: Global, values: &[Value], words: u32) -> Result<Items<RingJob>, JobError>
    ensures ok { IfOk result (λ rings. (each_ring_faults words 0 (items_view values.now) ≡ []) × (rings ≡ each_ring (items_view values.now))) }
    ensures err { IfErr result (λ e. (e ≡ JobError.NoMemory) ⊎ IsFirst (each_ring_faults words 0 (items_view values.now)) e) }
{
    let mut rings = Items::new(alloc);
    for (index, value) in values.iter().enumerate() {
        let ring = ring_of(alloc, value, index, words)?;
        rings.push(ring)?;
    }
    Ok(rings)
}

/// The rings of a job, in a buffer of so many words; none where they are left out. J2: `rings` is no list. J8: it has more than 16
/// elements. Else as the first ring that is at fault.
pub(crate) fn rings_of(alloc: Global, job: &Value, words: u32) -> Result<Items<RingJob>, JobError>
    ensures ok { IfOk result (λ rings. (rings_faults words (field_of Key.Rings (view job.now)) ≡ []) × (rings ≡ given_rings (view job.now))) }
    ensures err { IfErr result (λ e. (e ≡ JobError.NoMemory) ⊎ IsFirst (rings_faults words (field_of Key.Rings (view job.now))) e) }
{
    let values = listed_rings(job)?;
    each_ring(alloc, values, words)
}

/// The elements of `rings`; none where it is left out or no list.
pub(crate) fn spelled_rings(job: &Value) -> &[Value]
    ensures { given_rings (view job.now) ≡ each_ring (items_view result.now) }
{
    match listed(job, Key::Rings) {
        None => &[],
        Some(values) => values,
    }
}
