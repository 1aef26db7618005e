//! Jobs whose parts are given, and whose entry point is named by text.

ghost use Rattle.std.specs.Prelude.{◌≡◌, ◌≢◌, ◌+◌, ◌/◌, ◌<◌, [], ◌⊎◌, length, IfOk, IfErr, OnOk, Some};
ghost use Rattle.std.specs.List.{All};
ghost use Rattle.td_job.specs.Imports.{Entry, Module};
ghost use Rattle.td_job.specs.Fields.{IsFirst};
ghost use Rattle.td_job.specs.Jobs.{EntryFault, HasRoom, HasValues, IsEntry};
ghost use Rattle.td_job.specs.Named.{FirstNamedFault, IsNamedJob, each_number_faults, limit_faults, named_faults, number_faults, each_word_faults, word_faults};
ghost use Rattle.td_job.specs.Slots.{slot_bounds};

use crate::checks::MOST_BYTES;
use crate::error::{JobError, JobRule, Key, Path};
use crate::run_job::RunJob;
use crate::stores::MOST_STORES;
use crate::values::{Slots, cells_of, definition_of, params_of};
use td_core::entries::entry_named;
use td_core::module::{Entry, Module};
use td_num::items::Items;
use td_num::text::Text;
use td_sched::store::PlannedStore;

/// A message to validate, and from which entry point, by its name. The parts are those of a [`RunJob`] of bytes without a layout.
#[derive(Drop)]
pub struct NamedJob {
    /// The name of the entry point.
    pub entry: Text,
    /// A value for each of its parameters.
    pub args: Items<u64>,
    /// The value that each of its cells begins with.
    pub cells: Items<u64>,
    /// The words with a byte of the message, each of eight bytes, that of least weight first.
    pub words: Items<u64>,
    /// How many bytes of them the message has.
    pub length: u32,
    /// What others store to the words, and before which load, in the order given.
    pub stores: Items<PlannedStore>,
}

/// Tests numbers one by one, as far as there are slots for them. J4: one doesn't fit.
fn check_each_number(numbers: &[u64], key: Key, slots: Slots) -> Result<(), JobError>
    ensures ok { OnOk result (each_number_faults key 0 (slot_bounds slots.entry) numbers.now ≡ []) }
    ensures err { IfErr result (λ e. IsFirst (each_number_faults key 0 (slot_bounds slots.entry) numbers.now) e) }
{
    for (index, number) in numbers.iter().enumerate() {
        let Some(most) = slots.most(index) else {
            break;
        };
        if *number > most {
            return Err(JobRule::Values.at_element(key, index));
        }
    }
    Ok(())
}

/// Tests numbers. J4: they are not as many as there are slots, or one doesn't fit.
fn check_numbers(numbers: &[u64], key: Key, slots: Slots) -> Result<(), JobError>
    ensures ok { OnOk result (number_faults key (slot_bounds slots.entry) numbers.now ≡ []) }
    ensures err { IfErr result (λ e. IsFirst (number_faults key (slot_bounds slots.entry) numbers.now) e) }
{
    if numbers.len() != slots.len() {
        return Err(JobRule::Values.at(Path::Whole(key)));
    }
    check_each_number(numbers, key, slots)
}

/// Tests the length of a message. J8: it passes 1,048,576 bytes.
fn check_limit(length: u32) -> Result<(), JobError>
    ensures ok { OnOk result (limit_faults length ≡ []) }
    ensures err { IfErr result (λ e. IsFirst (limit_faults length) e) }
{
    if u64::from(length) > MOST_BYTES {
        Err(JobRule::Limit.at(Path::Whole(Key::Length)))
    } else {
        Ok(())
    }
}

/// Tests stores one by one. J6: the word of one is none of the message's, which has so many.
fn check_each_store(stores: &[PlannedStore], words: usize) -> Result<(), JobError>
    ensures ok { OnOk result (each_word_faults words 0 stores.now ≡ []) }
    ensures err { IfErr result (λ e. IsFirst (each_word_faults words 0 stores.now) e) }
{
    for (index, store) in stores.iter().enumerate() {
        if store.word as usize >= words {
            return Err(JobRule::NoWord.at_element(Key::Stores, index));
        }
    }
    Ok(())
}

/// Tests stores to a message of so many words. J6: the word of one is none of them. J8: there are more than 65,536.
fn check_stores(stores: &[PlannedStore], words: usize) -> Result<(), JobError>
    ensures ok { OnOk result (word_faults words stores.now ≡ []) }
    ensures err { IfErr result (λ e. IsFirst (word_faults words stores.now) e) }
{
    if stores.len() > MOST_STORES {
        return Err(JobRule::Limit.at(Path::Whole(Key::Stores)));
    }
    check_each_store(stores, words)
}

/// The entry point of this name. J3: there is none.
fn entry_of(name: &[u8], m: &Module) -> Result<Entry, JobError>
    ensures ok { IfOk result (λ entry. IsEntry m.now (Some name.now) entry) }
    ensures err { IfErr result (λ e. EntryFault m.now (Some name.now) e) }
{
    match entry_named(m, name) {
        None => Err(JobRule::NoEntry.at(Path::Whole(Key::Entry))),
        Some(entry) => Ok(entry),
    }
}

/// Tests all of a job but the name of its entry point, which is this one.
fn check_parts(job: &NamedJob, m: &Module, entry: Entry) -> Result<(), JobError>
    ensures ok { OnOk result (named_faults m.now entry job.now ≡ []) }
    ensures err { IfErr result (λ e. IsFirst (named_faults m.now entry job.now) e) }
{
    let definition = definition_of(m, entry);
    check_numbers(job.args.as_slice(), Key::Args, params_of(definition))?;
    check_numbers(job.cells.as_slice(), Key::Cells, cells_of(definition))?;
    check_limit(job.length)?;
    check_stores(job.stores.as_slice(), job.words.len())
}

impl NamedJob {
    /// The entry point that a job begins at, once the whole job was tested.
    fn tested_entry(&self, m: &Module) -> Result<Entry, JobError>
        ensures entry { IfOk result (λ entry. IsEntry m.now (Some self.now.entry) entry) }
        ensures faultless { IfOk result (λ entry. named_faults m.now entry self.now ≡ []) }
        ensures err { IfErr result (λ e. FirstNamedFault m.now self.now e) }
    {
        let entry = entry_of(self.entry.as_slice(), m)?;
        check_parts(self, m, entry)?;
        Ok(entry)
    }

    /// The run job that this is for a module. Takes no memory.
    ///
    /// J3: no entry point has the name. J4: there are not as many arguments or cells as the entry point has, or one doesn't
    /// fit. J6: a store's word is none of the message's. J8: the length passes 1,048,576 bytes, or there are more than 65,536
    /// stores. It is the first of these, in the order of the fields, as [`crate::run_job::read_run_job`] has it.
    pub fn resolve(self, m: &Module) -> Result<RunJob, JobError>
        requires { length self.words ≡ (self.length + 7) / 8 }
        ensures job { IfOk result (λ j. IsNamedJob m.now self j) }
        ensures room { IfOk result HasRoom }
        ensures entry { IfOk result (λ j. j.entry.number < length m.now.entries) }
        ensures values { IfOk result (λ j. HasValues m.now j) }
        ensures refused { IfErr result (λ e. FirstNamedFault m.now self e) }
    {
        let entry = self.tested_entry(m)?;
        Ok(RunJob {
            entry,
            args: self.args,
            cells: self.cells,
            words: self.words,
            length: self.length,
            layout: None,
            stores: self.stores,
            written: None,
        })
    }
}
