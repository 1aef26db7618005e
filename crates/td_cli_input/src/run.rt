//! The module and the run job of an input, or why it has none.

ghost use Rattle.std.specs.Prelude.{◌≡◌, ◌<◌, ◌^◌, ◌-◌, ℕ, Err, length, IfOk, IfErr, IsErr, IsErrOf};
ghost use Rattle.td_cli_input.specs.Imports.{Module, RunJob};
ghost use Rattle.td_job.specs.Jobs.{HasRoom};
ghost use Rattle.td_cli_input.specs.declared.refusal.Refusal.{Refusal};
ghost use Rattle.td_cli_input.specs.Causes.{HasCause, HasParts};
ghost use Rattle.td_cli_input.specs.Marker.{IsMarker};
ghost use Rattle.td_cli_input.specs.Inputs.{IsRunInput, RefusesRun, IsSoundJob};

use crate::refusal::{InputError, Refusal, of_job};
use crate::split::job_part;
use crate::text::parse_module;
use std::alloc::Global;
use td_arith::laws::evaluated_is_sound;
use td_core::module::Module;
use td_job::run_job::{RunJob, read_run_job};

/// The module and the job of an input.
#[derive(Drop)]
pub struct RunInput {
    pub module: Module,
    pub job: RunJob,
}

/// Parses an input: a module text, the first line that is exactly `%%`, and a run job.
///
/// `Refused`: there is no such line, the text is no module, or the job is none for it; the first of these. `NoMemory`:
/// there was no memory for a token before that line, or for a job of a byte or more. The line is looked for without any, so
/// where it is missing that is told in any case. Whatever bytes
/// the message of the job has, each expression that the module's meaning evaluates lies in its type's range.
pub fn parse_run_input(alloc: Global, input: &[u8]) -> Result<RunInput, InputError>
    requires { length input.now < 2 ^ 32 - 1 }
    ensures input { IfOk result (λ given. IsRunInput input.now given.module given.job) }
    ensures room { IfOk result (λ given. HasRoom given.job) }
    ensures cause { IfErr result (HasCause (RefusesRun input.now)) }
    ensures sound { IfOk result (λ given. IsSoundJob given.module given.job) }
    ensures complete { (m : Module) (job : RunJob) → IsRunInput input.now m job → IfErr result (λ e. e ≡ InputError.NoMemory) }
    ensures refused { (refusal : Refusal) → RefusesRun input.now refusal → IsErr result }
    ensures no_job { ((n : ℕ) → IsMarker input.now n → ⊥) → IsErrOf result (InputError.Refused Refusal.NoJob) }
    ensures memory { result ≡ Err InputError.NoMemory → HasParts input.now }
{
    evaluated_is_sound();
    let part = parse_module(alloc, input)?;
    match read_run_job(alloc, job_part(input, part.place), &part.module) {
        Ok(job) => Ok(RunInput {
            module: part.module,
            job,
        }),
        Err(error) => Err(of_job(error)),
    }
}
