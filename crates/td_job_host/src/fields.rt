//! The fields of a host job, each looked at for all that can be wrong with it.

ghost use Rattle.std.specs.Prelude.{◌≡◌, ◌≢◌, [], ◌⊎◌, Err, Some, option_map, OnOk, IfOk, IfErr};
ghost use Rattle.serde_json.specs.View.{view};
ghost use Rattle.td_job.specs.Fields.{IsFirst, number_of};
ghost use Rattle.td_job_host.specs.Guests.{BeginsWithName};
ghost use Rattle.td_job_host.specs.HostJobs.{buffer_words, FirstFault, HasGoodFields, rest_faults, after_faults};

use crate::copies::buffers_in;
use crate::guests::{check_each_guest, listed_guests, spelled_guests, workers_of};
use crate::rings::{check_each_ring, listed_rings, spelled_rings};
use crate::swaps::check_swap_list;
use crate::totals::check_totals;
use serde_json::Value;
use std::alloc::Global;
use td_core::module::{Entry, Module, TypeDef};
use td_job::checks::{check_names, count_of, entry_of};
use td_job::error::{JobError, Key};
use td_job::values::{check_args, definition_of, params_of};

/// The fields of a host job.
const FIELDS: &[Key] = &[
    Key::Entry,
    Key::Args,
    Key::Buffer,
    Key::Workers,
    Key::Guests,
    Key::Rings,
    Key::Swaps,
];

/// Tests the first fields of a job, up to `workers`, and gives its entry point, how many words its buffer fills, and how many
/// workers it has. J2 to J5, J8: the first fault of these. Takes no memory.
pub(crate) fn check_first(job: &Value, m: &Module) -> Result<(Entry, usize, u32), JobError>
    ensures good { IfOk result (λ x. HasGoodFields m.now (view job.now) x.0) }
    ensures words { IfOk result (λ x. buffer_words (view job.now) ≡ x.1) }
    ensures workers { IfOk result (λ x. number_of Key.Workers (view job.now) ≡ Some x.2) }
    ensures err { IfErr result (λ e. FirstFault m.now (view job.now) e) }
    ensures broken { IfErr result (λ e. e ≢ JobError.NoMemory) }
{
    let entry = entry_of(job, m)?;
    check_args(job, params_of(definition_of(m, entry)))?;
    let bytes = count_of(job, Key::Buffer)?;
    let workers = workers_of(job)?;
    Ok((entry, bytes.div_ceil(8), workers))
}

/// Tests a job for the faults after its first fields and before the elements of `swaps`, for a buffer of so many words: the guests, the
/// rings, and the list of swaps; the first fault of these. `NoMemory`: that is a field of another name of a guest or of a ring, and
/// there was no memory for the name, which is all that takes any.
pub(crate) fn check_rest(alloc: Global, job: &Value, words: u32) -> Result<(), JobError>
    ensures ok { OnOk result (rest_faults words (view job.now) ≡ []) }
    ensures err { IfErr result (λ e. (e ≡ JobError.NoMemory) ⊎ IsFirst (rest_faults words (view job.now)) e) }
    ensures memory { result ≡ Err JobError.NoMemory → BeginsWithName (rest_faults words (view job.now)) }
{
    let guests = listed_guests(job)?;
    check_each_guest(alloc, guests, words)?;
    let rings = listed_rings(job)?;
    check_each_ring(alloc, rings, words)?;
    check_swap_list(job)?;
    Ok(())
}

/// Tests a job for the faults after the elements of `swaps`: the fields of other names, and the totals, where this is the entry point's
/// definition; the first fault of these.
/// `NoMemory`: that is a field of another name, and there was no memory for the name, which is all that takes any.
pub(crate) fn check_after(
    alloc: Global,
    job: &Value,
    definition: Option<&TypeDef>,
) -> Result<(), JobError>
    ensures ok { OnOk result (after_faults (option_map (λ d. d.now) definition.entry) (view job.now) ≡ []) }
    ensures err { IfErr result (λ e. (e ≡ JobError.NoMemory) ⊎ IsFirst (after_faults (option_map (λ d. d.now) definition.entry) (view job.now)) e) }
    ensures memory { result ≡ Err JobError.NoMemory → BeginsWithName (after_faults (option_map (λ d. d.now) definition.entry) (view job.now)) }
{
    check_names(alloc, job, FIELDS)?;
    check_totals(
        spelled_guests(job),
        spelled_rings(job),
        buffers_in(definition),
    )
}
