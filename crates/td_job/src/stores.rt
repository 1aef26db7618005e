//! The stores of a job.

ghost use Rattle.std.specs.Prelude.{◌≡◌, ◌≢◌, ℕ, ◌<◌, [], ◌∷◌, ◌⊎◌, IfOk, IfErr, OnOk, option_map};
ghost use Rattle.std.specs.List.{All};
ghost use Rattle.serde_json.specs.View.{view, items_view};
ghost use Rattle.td_job.specs.Fields.{field_of, IsFirst};
ghost use Rattle.td_job.specs.Jobs.{spelled_store, spelled_word, store_faults, store_of, each_store, each_store_faults, stores_faults, given_stores};

use crate::error::{JobError, JobRule, Key, Path};
use crate::json::field_of;
use hex::FromHex;
use serde_json::Value;
use std::alloc::Global;
use td_num::bytes::load_le;
use td_num::items::Items;
use td_num::number::Width;
use td_sched::store::PlannedStore;

/// The most stores that a job has.
pub const MOST_STORES: usize = td_core::limits::MOST_STORES;

/// The three parts of a store, as a job spells them.
#[derive(Clone, Copy)]
struct SpelledStore<'a> {
    before: u64,
    word: u64,
    text: &'a str,
}

/// The parts of a store. None: the value is no list of exactly a whole number, a whole number and a text.
fn spelled_store(value: &Value) -> Option<SpelledStore<'_>>
    ensures { option_map (λ s. record { before = s.before; word = s.word; text = s.text.now }) result ≡ spelled_store (view value.now) }
{
    let [before, word, text] = value.as_array()?.as_slice() else {
        return None;
    };
    Some(SpelledStore {
        before: before.as_u64()?,
        word: word.as_u64()?,
        text: text.as_str()?,
    })
}

/// The word of 16 hexadecimal digits, two for each byte, that of least weight first. None: the text is anything else.
pub fn word_of(text: &str) -> Option<u64>
    ensures { result ≡ spelled_word text.now }
{
    let bytes = <[u8; 8] as FromHex>::from_hex(text).ok()?;
    Some(load_le(&bytes, Width::Eight))
}

/// The store of an element of the list, of a job of so many words. J2: the element has another form. J5: its text
/// is not 16 hexadecimal digits. J6: its word is none of the job's. Takes no memory.
fn store_of(value: &Value, index: usize, words: u32) -> Result<PlannedStore, JobError>
    ensures ok { IfOk result (λ s. (store_faults words (Path.Element Key.Stores index) (spelled_store (view value.now)) ≡ []) × (store_of (spelled_store (view value.now)) ≡ s ∷ [])) }
    ensures inside { IfOk result (λ s. s.word < words) }
    ensures err { IfErr result (λ e. IsFirst (store_faults words (Path.Element Key.Stores index) (spelled_store (view value.now))) e) }
    ensures broken { IfErr result (λ e. e ≢ JobError.NoMemory) }
{
    let Some(spelled) = spelled_store(value) else {
        return Err(JobRule::Form.at_element(Key::Stores, index));
    };
    let Some(value) = word_of(spelled.text) else {
        return Err(JobRule::Digits.at_element(Key::Stores, index));
    };
    if spelled.word >= u64::from(words) {
        return Err(JobRule::NoWord.at_element(Key::Stores, index));
    }
    Ok(PlannedStore {
        before: spelled.before,
        word: spelled.word as u32,
        value,
    })
}

/// Tests the elements of a list one by one, as stores of a job of so many words.
fn check_each_store(values: &[Value], words: u32) -> Result<(), JobError>
    ensures ok { OnOk result (each_store_faults words 0 (items_view values.now) ≡ []) }
    ensures err { IfErr result (λ e. IsFirst (each_store_faults words 0 (items_view values.now)) e) }
    ensures broken { IfErr result (λ e. e ≢ JobError.NoMemory) }
{
    for (index, value) in values.iter().enumerate() {
        store_of(value, index, words)?;
    }
    Ok(())
}

/// The stores of a list's elements, of a job of so many words, or the first fault of these.
fn each_store(alloc: Global, values: &[Value], words: u32) -> Result<Items<PlannedStore>, JobError>
    ensures ok { IfOk result (λ stores. (each_store_faults words 0 (items_view values.now) ≡ []) × (stores ≡ each_store (items_view values.now))) }
    ensures inside { IfOk result (λ stores. All (λ s. s.word < words) stores) }
    ensures err { IfErr result (λ e. (e ≡ JobError.NoMemory) ⊎ IsFirst (each_store_faults words 0 (items_view values.now)) e) }
{
    let mut stores = Items::new(alloc);
    for (index, value) in values.iter().enumerate() {
        let store = store_of(value, index, words)?;
        stores.push(store)?;
    }
    Ok(stores)
}

/// The elements of `stores`; none where it is left out. J2: it is no list. J8: it has more than 65,536 elements. Takes
/// no memory.
fn listed_stores(job: &Value) -> Result<&[Value], JobError>
    ensures ok { IfOk result (λ values. (words : ℕ) → stores_faults words (field_of Key.Stores (view job.now)) ≡ each_store_faults words 0 (items_view values.now)) }
    ensures given { IfOk result (λ values. given_stores (view job.now) ≡ each_store (items_view values.now)) }
    ensures err { IfErr result (λ e. (words : ℕ) → IsFirst (stores_faults words (field_of Key.Stores (view job.now))) e) }
    ensures broken { IfErr result (λ e. e ≢ JobError.NoMemory) }
{
    let Some(value) = field_of(job, Key::Stores) else {
        return Ok(&[]);
    };
    match value.as_array() {
        None => Err(JobRule::Form.at(Path::Whole(Key::Stores))),
        Some(values) => if values.len() > MOST_STORES {
            Err(JobRule::Limit.at(Path::Whole(Key::Stores)))
        } else {
            Ok(values.as_slice())
        },
    }
}

/// Tests the stores that a job of so many words makes. J2: `stores` is no list, or an element has another
/// form. J5: an element's text is not 16 hexadecimal digits. J6: its word is none of the job's. J8: the list has more
/// than 65,536 elements. Takes no memory.
pub(crate) fn check_stores(job: &Value, words: u32) -> Result<(), JobError>
    ensures ok { OnOk result (stores_faults words (field_of Key.Stores (view job.now)) ≡ []) }
    ensures err { IfErr result (λ e. IsFirst (stores_faults words (field_of Key.Stores (view job.now))) e) }
    ensures broken { IfErr result (λ e. e ≢ JobError.NoMemory) }
{
    let values = listed_stores(job)?;
    check_each_store(values, words)
}

/// The stores that a job of so many words makes, in the order given. J2 to J8: as `check_stores`.
pub(crate) fn stores_of(
    alloc: Global,
    job: &Value,
    words: u32,
) -> Result<Items<PlannedStore>, JobError>
    ensures ok { IfOk result (λ stores. (stores_faults words (field_of Key.Stores (view job.now)) ≡ []) × (stores ≡ given_stores (view job.now))) }
    ensures inside { IfOk result (λ stores. All (λ s. s.word < words) stores) }
    ensures err { IfErr result (λ e. (e ≡ JobError.NoMemory) ⊎ IsFirst (stores_faults words (field_of Key.Stores (view job.now))) e) }
{
    let values = listed_stores(job)?;
    each_store(alloc, values, words)
}
