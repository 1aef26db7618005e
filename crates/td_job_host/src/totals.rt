//! The totals over a host job: its posts, its stores, the words of its messages, and the bytes of its copy buffers.

ghost use Rattle.std.specs.Prelude.{◌≡◌, ◌≢◌, ◌+◌, ◌-◌, ◌^◌, [], ℕ, map, min, OnOk, IfErr};
ghost use Rattle.std.specs.List.{sum_by};
ghost use Rattle.serde_json.specs.View.{view, items_view};
ghost use Rattle.td_job.specs.Fields.{IsFirst};
ghost use Rattle.td_posts.specs.declared.job.Step.TheVariants as step;
ghost use Rattle.td_posts.specs.Servable.{room_in};
ghost use Rattle.td_job.specs.Stretches.{each_stretch};
ghost use Rattle.td_job_host.specs.Steps.{spelled_step, step_in, store_in, each_step};
ghost use Rattle.td_job_host.specs.Guests.{given_script, each_script};
ghost use Rattle.td_job_host.specs.Rings.{given_ring, each_ring};
ghost use Rattle.td_job_host.specs.Totals.{weight, ring_weight, most_of, key_of, total, total_fault, totals_faults};

use crate::copies::check_copies;
use crate::guests::listed;
use crate::rings::{copied_bytes, message_words};
use crate::scatter::Measure;
use crate::steps::{Spelled, spelled_step};
use serde_json::Value;
use td_core::module::Buffer;
use td_job::error::{JobError, JobRule, Key, Path};
use td_job::stores::word_of;
use td_posts::limits::{MOST_COPIED_BYTES, MOST_MESSAGE_WORDS, MOST_POSTS, MOST_STORES};

/// What is counted over a host job.
#[derive(Clone, Copy)]
pub(crate) enum Total {
    Posts,
    Stores,
    Words,
    /// Where the copy buffers of one validation have so many bytes.
    Copies(u64),
}

impl Total {
    /// By how much a store counts.
    fn of_store(self) -> u64
        ensures { (word value : ℕ) → result ≡ weight self (step.Store word value) }
    {
        match self {
            Total::Stores => 1,
            Total::Posts | Total::Words | Total::Copies(_) => 0,
        }
    }

    /// By how much a post of a message of so many bytes counts.
    fn of_post(self, length: u64) -> u64
        ensures { (base : ℕ) → result ≡ weight self (step.Post base length) }
    {
        match self {
            Total::Posts => 1,
            Total::Stores => 0,
            Total::Words => length.div_ceil(8),
            Total::Copies(room) => room,
        }
    }

    /// By how much a post of the message counts whose stretches these values spell; at most 2^64 - 1.
    fn of_scatter(self, stretches: &[Value]) -> u64
        ensures { result ≡ min (weight self (step.Scatter (each_stretch (items_view stretches.now)))) (2 ^ 64 - 1) }
    {
        match self {
            Total::Posts => 1,
            Total::Stores => 0,
            Total::Words => Measure::Words.over(stretches),
            Total::Copies(room) => room,
        }
    }

    /// By how much a store of this text counts; a text that is no word is no store.
    fn of_text(self, text: &str) -> u64
        ensures { (word : ℕ) → result ≡ sum_by (weight self) (store_in word text.now) }
    {
        match word_of(text) {
            None => 0,
            Some(_) => self.of_store(),
        }
    }

    /// By how much the step that a value spells counts, at most 2^64 - 1; one that spells none counts nothing.
    fn of_step(self, value: &Value) -> u64
        ensures { result ≡ min (sum_by (weight self) (step_in (spelled_step (view value.now)))) (2 ^ 64 - 1) }
    {
        match spelled_step(value) {
            None => 0,
            Some(Spelled::Store { text, .. }) => self.of_text(text),
            Some(Spelled::Post { length, .. }) => self.of_post(length),
            Some(Spelled::Scatter { stretches }) => self.of_scatter(stretches),
        }
    }

    /// How much there is at most.
    fn most(self) -> u64
        ensures { result ≡ most_of self }
    {
        match self {
            Total::Posts => MOST_POSTS as u64,
            Total::Stores => MOST_STORES as u64,
            Total::Words => MOST_MESSAGE_WORDS,
            Total::Copies(_) => MOST_COPIED_BYTES,
        }
    }

    /// The word for it in error lines.
    fn key(self) -> Key
        ensures { result ≡ key_of self }
    {
        match self {
            Total::Posts => Key::Posts,
            Total::Stores => Key::Stores,
            Total::Words => Key::Words,
            Total::Copies(_) => Key::Copies,
        }
    }

    /// What was counted before, and these steps more; at most 2^64 - 1.
    fn with_steps(self, counted: u64, values: &[Value]) -> u64
        ensures { result ≡ min (counted + sum_by (weight self) (each_step (items_view values.now))) (2 ^ 64 - 1) }
    {
        let mut sum = counted;
        for value in values {
            sum = sum.saturating_add(self.of_step(value));
        }
        sum
    }

    /// What was counted before, and the script of a guest more; at most 2^64 - 1.
    fn with_script(self, counted: u64, guest: &Value) -> u64
        ensures { result ≡ min (counted + sum_by (weight self) (given_script (view guest.now))) (2 ^ 64 - 1) }
    {
        match listed(guest, Key::Script) {
            None => counted,
            Some(values) => self.with_steps(counted, values),
        }
    }

    /// What is counted over the scripts of all guests; at most 2^64 - 1.
    fn over_guests(self, guests: &[Value]) -> u64
        ensures { result ≡ min (sum_by (sum_by (weight self)) (each_script (items_view guests.now))) (2 ^ 64 - 1) }
    {
        let mut sum = 0;
        for guest in guests {
            sum = self.with_script(sum, guest);
        }
        sum
    }

    /// By how much the ring that a value spells counts, at most 2^64 - 1.
    fn of_ring(self, value: &Value) -> u64
        ensures { result ≡ min (ring_weight self (given_ring (view value.now))) (2 ^ 64 - 1) }
    {
        match self {
            Total::Posts | Total::Stores => 0,
            Total::Words => message_words(value),
            Total::Copies(room) => copied_bytes(value, room),
        }
    }

    /// What was counted before, and these rings more; at most 2^64 - 1.
    fn with_rings(self, counted: u64, rings: &[Value]) -> u64
        ensures { result ≡ min (counted + sum_by (ring_weight self) (each_ring (items_view rings.now))) (2 ^ 64 - 1) }
    {
        let mut sum = counted;
        for ring in rings {
            sum = sum.saturating_add(self.of_ring(ring));
        }
        sum
    }

    /// What is counted over the scripts of all guests, and over all rings; at most 2^64 - 1.
    fn over(self, guests: &[Value], rings: &[Value]) -> u64
        ensures { result ≡ min (total self (each_script (items_view guests.now)) (each_ring (items_view rings.now))) (2 ^ 64 - 1) }
    {
        self.with_rings(self.over_guests(guests), rings)
    }

    /// Tests a total. J8: it is too much.
    pub(crate) fn check(self, guests: &[Value], rings: &[Value]) -> Result<(), JobError>
        ensures ok { OnOk result (total_fault self (each_script (items_view guests.now)) (each_ring (items_view rings.now)) ≡ []) }
        ensures err { IfErr result (IsFirst (total_fault self (each_script (items_view guests.now)) (each_ring (items_view rings.now)))) }
        ensures broken { IfErr result (λ e. e ≢ JobError.NoMemory) }
    {
        if self.over(guests, rings) > self.most() {
            Err(JobRule::Limit.at(Path::Whole(self.key())))
        } else {
            Ok(())
        }
    }
}

/// Tests the totals over the scripts of these guests and over these rings, as the job spells them, whose validations have these copy
/// buffers. J8: there are more than 4,096 posts, more than 65,536 stores, messages of more than 1,048,576 words in all, with those that
/// takes from the rings can have, or copy buffers of more than 16,777,216 bytes; the first of these. Takes no memory.
pub(crate) fn check_totals(
    guests: &[Value],
    rings: &[Value],
    buffers: &[Buffer],
) -> Result<(), JobError>
    ensures ok { OnOk result (totals_faults (room_in (map (λ b. b.room) buffers.now)) (each_script (items_view guests.now)) (each_ring (items_view rings.now)) ≡ []) }
    ensures err { IfErr result (IsFirst (totals_faults (room_in (map (λ b. b.room) buffers.now)) (each_script (items_view guests.now)) (each_ring (items_view rings.now)))) }
    ensures broken { IfErr result (λ e. e ≢ JobError.NoMemory) }
{
    Total::Posts.check(guests, rings)?;
    Total::Stores.check(guests, rings)?;
    Total::Words.check(guests, rings)?;
    check_copies(guests, rings, buffers)
}
