//! The steps of a guest's script.

ghost use Rattle.std.specs.Prelude.{◌≡◌, ◌≢◌, [], ◌∷◌, ◌⊎◌, Err, OnOk, IfOk, IfErr, option_map};
ghost use Rattle.serde_json.specs.View.{view, items_view};
ghost use Rattle.td_job.specs.Fields.{IsFirst, whole};
ghost use Rattle.serde_json.specs.Find.{as_array, as_str};
ghost use Rattle.td_job_host.specs.Steps.{spelled_as, spelled_store, spelled_post, spelled_scatter, by_verb, by_list, spelled_step, store_faults, post_faults, step_faults, step_in, store_in, post_in, each_step, each_step_faults};

use crate::scatter::{are_stretches, check_scatter, scatter_of};
use serde_json::Value;
use std::alloc::Global;
use td_job::checks::MOST_BYTES;
use td_job::error::{JobError, JobRule, Path};
use td_job::stores::word_of;
use td_num::items::Items;
use td_posts::job::Step;

/// The place of a step: that of its guest in the list of guests, and its own in the script, each from 0.
#[derive(Clone, Copy)]
pub(crate) struct StepAt {
    pub guest: usize,
    pub index: usize,
}

impl StepAt {
    /// The fault of a job that breaks a rule at this step.
    pub(crate) fn fault(self, rule: JobRule) -> JobError
        ensures { result ≡ JobError.Fault rule (Path.Step self.guest self.index) }
    {
        rule.at(Path::Step {
            guest: self.guest,
            index: self.index,
        })
    }
}

/// A step of a script, as a job spells it.
#[derive(Clone, Copy)]
pub(crate) enum Spelled<'a> {
    Store { word: u64, text: &'a str },
    Post { base: u64, length: u64 },
    /// A post of the message whose stretches these values spell.
    Scatter { stretches: &'a [Value] },
}

/// A store by the parts after its verb. None: they are no whole number and a text.
fn spelled_store<'a>(word: &Value, text: &'a Value) -> Option<Spelled<'a>>
    ensures { option_map spelled_as result ≡ spelled_store (whole (view word.now)) (as_str (view text.now)) }
{
    Some(Spelled::Store {
        word: word.as_u64()?,
        text: text.as_str()?,
    })
}

/// A post by the parts after its verb. None: they are no two whole numbers.
fn spelled_post<'a>(base: &Value, length: &Value) -> Option<Spelled<'a>>
    ensures { option_map spelled_as result ≡ spelled_post (whole (view base.now)) (whole (view length.now)) }
{
    Some(Spelled::Post {
        base: base.as_u64()?,
        length: length.as_u64()?,
    })
}

/// A post of a message by the list of its stretches. None: it is no list, or one of its values is no stretch.
fn spelled_scatter(list: &Value) -> Option<Spelled<'_>>
    ensures { option_map spelled_as result ≡ spelled_scatter (as_array (view list.now)) }
{
    let stretches = list.as_array()?.as_slice();
    if are_stretches(stretches) {
        Some(Spelled::Scatter { stretches })
    } else {
        None
    }
}

/// A step by its verb and its list. None: it is no post, or none by this list.
fn spelled_by_list<'a>(verb: &Value, list: &'a Value) -> Option<Spelled<'a>>
    ensures { option_map spelled_as result ≡ by_list (as_str (view verb.now)) (view list.now) }
{
    if verb.as_str()? == "post" {
        spelled_scatter(list)
    } else {
        None
    }
}

/// A step by its verb and its two parts. None: there is no such verb, or its parts have another form.
fn spelled_by_verb<'a>(verb: &Value, first: &Value, second: &'a Value) -> Option<Spelled<'a>>
    ensures { option_map spelled_as result ≡ by_verb (as_str (view verb.now)) (view first.now) (view second.now) }
{
    let verb = verb.as_str()?;
    if verb == "store" {
        spelled_store(first, second)
    } else if verb == "post" {
        spelled_post(first, second)
    } else {
        None
    }
}

/// A step. None: the value is no list of exactly a verb and its two parts, or of `post` and a list of stretches.
pub(crate) fn spelled_step(value: &Value) -> Option<Spelled<'_>>
    ensures { option_map spelled_as result ≡ spelled_step (view value.now) }
{
    match value.as_array()?.as_slice() {
        [verb, list] => spelled_by_list(verb, list),
        [verb, first, second] => spelled_by_verb(verb, first, second),
        _ => None,
    }
}

/// A store to a buffer of so many words, at this place of the job. J5: the text is not 16 hexadecimal digits. J6: the word
/// is none of the buffer's.
fn store_of(word: u64, text: &str, place: StepAt, words: u32) -> Result<Step, JobError>
    ensures ok { IfOk result (λ s. (store_faults words (Path.Step place.guest place.index) word text.now ≡ []) × (store_in word text.now ≡ s ∷ [])) }
    ensures err { IfErr result (IsFirst (store_faults words (Path.Step place.guest place.index) word text.now)) }
    ensures broken { IfErr result (λ e. e ≢ JobError.NoMemory) }
{
    let Some(value) = word_of(text) else {
        return Err(place.fault(JobRule::Digits));
    };
    if word >= u64::from(words) {
        return Err(place.fault(JobRule::NoWord));
    }
    Ok(Step::Store {
        word: word as u32,
        value,
    })
}

/// A post of a message in a buffer of so many words, at this place of the job. J7: the message passes the end of the
/// buffer. J8: it has more than 1,048,576 bytes.
fn post_of(base: u64, length: u64, place: StepAt, words: u32) -> Result<Step, JobError>
    ensures ok { IfOk result (λ s. (post_faults words (Path.Step place.guest place.index) base length ≡ []) × (post_in base length ≡ s ∷ [])) }
    ensures err { IfErr result (IsFirst (post_faults words (Path.Step place.guest place.index) base length)) }
    ensures broken { IfErr result (λ e. e ≢ JobError.NoMemory) }
{
    let words = u64::from(words);
    if base > words || length.div_ceil(8) > words - base {
        Err(place.fault(JobRule::PastBytes))
    } else if length > MOST_BYTES {
        Err(place.fault(JobRule::Limit))
    } else {
        Ok(Step::Post {
            base: base as u32,
            length: length as u32,
        })
    }
}

/// Tests a step of a guest's script, for a buffer of so many words. J2: it has another form. J5: a store's text is not 16
/// hexadecimal digits. J6: a store's word is none of the buffer's. J7: a message passes the end of the buffer. J8: it has
/// more than 1,048,576 bytes, or more than 64 stretches. Takes no memory.
fn check_step(value: &Value, guest: usize, index: usize, words: u32) -> Result<(), JobError>
    ensures ok { OnOk result (step_faults words (Path.Step guest index) (spelled_step (view value.now)) ≡ []) }
    ensures err { IfErr result (IsFirst (step_faults words (Path.Step guest index) (spelled_step (view value.now)))) }
    ensures broken { IfErr result (λ e. e ≢ JobError.NoMemory) }
{
    let place = StepAt { guest, index };
    // what isn't kept is let go by a call, as each way through its variants is a way through the function
    match spelled_step(value) {
        None => Err(place.fault(JobRule::Form)),
        Some(Spelled::Store { word, text }) => {
            drop(store_of(word, text, place, words)?);
            Ok(())
        }
        Some(Spelled::Post { base, length }) => {
            drop(post_of(base, length, place, words)?);
            Ok(())
        }
        Some(Spelled::Scatter { stretches }) => check_scatter(stretches, place, words),
    }
}

/// A step of a guest's script, for a buffer of so many words. J2, J5 to J8: as `check_step`. `NoMemory`: there is no fault, and
/// there was no memory for the step.
fn step_of(
    alloc: Global,
    value: &Value,
    guest: usize,
    index: usize,
    words: u32,
) -> Result<Step, JobError>
    ensures ok { IfOk result (λ s. (step_faults words (Path.Step guest index) (spelled_step (view value.now)) ≡ []) × (step_in (spelled_step (view value.now)) ≡ s ∷ [])) }
    ensures err { IfErr result (λ e. (e ≡ JobError.NoMemory) ⊎ IsFirst (step_faults words (Path.Step guest index) (spelled_step (view value.now))) e) }
{
    let place = StepAt { guest, index };
    match spelled_step(value) {
        None => Err(place.fault(JobRule::Form)),
        Some(Spelled::Store { word, text }) => store_of(word, text, place, words),
        Some(Spelled::Post { base, length }) => post_of(base, length, place, words),
        Some(Spelled::Scatter { stretches }) => scatter_of(alloc, stretches, place, words),
    }
}

/// Tests the steps of a guest's script one by one, for a buffer of so many words. The first fault of these. Takes no memory.
pub(crate) fn check_each_step(values: &[Value], guest: usize, words: u32) -> Result<(), JobError>
    ensures ok { OnOk result (each_step_faults words guest 0 (items_view values.now) ≡ []) }
    ensures err { IfErr result (IsFirst (each_step_faults words guest 0 (items_view values.now))) }
    ensures broken { IfErr result (λ e. e ≢ JobError.NoMemory) }
{
    for (index, value) in values.iter().enumerate() {
        check_step(value, guest, index, words)?;
    }
    Ok(())
}

/// The steps of a guest's script, for a buffer of so many words, or the first fault of these. `NoMemory`: none is at fault, and
/// there was no memory for them.
pub(crate) fn steps_of(
    alloc: Global,
    values: &[Value],
    guest: usize,
    words: u32,
) -> Result<Items<Step>, JobError>
    ensures ok { IfOk result (λ steps. (each_step_faults words guest 0 (items_view values.now) ≡ []) × (steps ≡ each_step (items_view values.now))) }
    ensures err { IfErr result (λ e. (e ≡ JobError.NoMemory) ⊎ IsFirst (each_step_faults words guest 0 (items_view values.now)) e) }
    ensures memory { result ≡ Err JobError.NoMemory → each_step_faults words guest 0 (items_view values.now) ≡ [] }
{
    check_each_step(values, guest, words)?;
    let mut steps = Items::new(alloc);
    for (index, value) in values.iter().enumerate() {
        let step = step_of(alloc, value, guest, index, words)?;
        steps.push(step)?;
    }
    Ok(steps)
}
