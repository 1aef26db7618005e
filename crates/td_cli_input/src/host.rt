//! The host job of an input, or why it has none.

ghost use Rattle.std.specs.Prelude.{◌≡◌, ◌<◌, ◌^◌, ◌-◌, ℕ, Err, Some, length, slice_get, IfOk, IfErr, IsErr, IsErrOf};
ghost use Rattle.std.specs.List.{All};
ghost use Rattle.td_cli_input.specs.Imports.{Module, HostJob};
ghost use Rattle.td_posts.specs.Servable.{IsServable};
ghost use Rattle.td_cli_input.specs.declared.refusal.Refusal.{Refusal};
ghost use Rattle.td_cli_input.specs.Causes.{HasCause, HasParts};
ghost use Rattle.td_cli_input.specs.Marker.{IsMarker};
ghost use Rattle.td_front.specs.Checked.{IsChecked};
ghost use Rattle.td_cli_input.specs.Inputs.{IsHostInput, RefusesHost, IsSoundHost, FitsVersions};

use crate::refusal::{InputError, Refusal, of_job};
use crate::split::job_part;
use crate::text::parse_module;
use std::alloc::Global;
use td_arith::laws::evaluated_is_sound;
use td_core::module::Module;
use td_front::laws::modules_are_checked;
use td_job_host::host_job::read_host_job;
use td_posts::job::HostJob;

/// The module and the job of an input; the job has a copy of the module as its version 0.
#[derive(Drop)]
pub struct HostInput {
    pub module: Module,
    pub job: HostJob,
}

/// Parses an input: a module text, the first line that is exactly `%%`, and a host job.
///
/// `Refused`: there is no such line, the text is no module, or the job is none for it; the first of these. `NoMemory`:
/// there was no memory for a token before that line, or for a job of a byte or more. The line is looked for without any, so
/// where it is missing that is told in any case. The modules of all versions are checked ones, of which version 0 is the input's
/// own; the job fits the entry point of each, a host can serve it, and whatever bytes a message has, each expression that a
/// version's meaning evaluates lies in its type's range.
pub fn parse_host_input(alloc: Global, input: &[u8]) -> Result<HostInput, InputError>
    requires { length input.now < 2 ^ 32 - 1 }
    ensures input { IfOk result (λ given. IsHostInput input.now given.module given.job) }
    ensures servable { IfOk result (λ given. IsServable given.job) }
    ensures checked { IfOk result (λ given. All IsChecked given.job.formats) }
    ensures first { IfOk result (λ given. slice_get given.job.formats 0 ≡ Some given.module) }
    ensures fits { IfOk result (λ given. FitsVersions given.job) }
    ensures sound { IfOk result (λ given. IsSoundHost given.job) }
    ensures cause { IfErr result (HasCause (RefusesHost input.now)) }
    ensures complete { (m : Module) (job : HostJob) → IsHostInput input.now m job → IfErr result (λ e. e ≡ InputError.NoMemory) }
    ensures refused { (refusal : Refusal) → RefusesHost input.now refusal → IsErr result }
    ensures no_job { ((n : ℕ) → IsMarker input.now n → ⊥) → IsErrOf result (InputError.Refused Refusal.NoJob) }
    ensures memory { result ≡ Err InputError.NoMemory → HasParts input.now }
{
    evaluated_is_sound();
    modules_are_checked();
    let part = parse_module(alloc, input)?;
    match read_host_job(alloc, job_part(input, part.place), &part.module) {
        Ok(job) => Ok(HostInput {
            module: part.module,
            job,
        }),
        Err(error) => Err(of_job(error)),
    }
}
