//! The replies to an input's job.

ghost use Rattle.std.specs.Prelude.{◌≡◌, ◌<◌, ◌^◌, ◌-◌, ◌*◌, ℕ, length, IfOk, IfErr, IsErr, IsErrOf};
ghost use Rattle.std.specs.List.{All};
ghost use Rattle.td_core.specs.declared.module.Module.{Module};
ghost use Rattle.td_posts.specs.declared.job.HostJob.{HostJob};
ghost use Rattle.td_cli_input.specs.declared.refusal.Refusal.{Refusal};
ghost use Rattle.td_cli_input.specs.Causes.{HasCause};
ghost use Rattle.td_front.specs.Checked.{IsChecked};
ghost use Rattle.td_cli_input.specs.Inputs.{IsHostInput, IsSoundHost, FitsVersions};
ghost use Rattle.td_cli_input.specs.Marker.{IsMarker};
ghost use Rattle.td_host_actors.specs.Replies.{IsJobCode};
ghost use Rattle.td_posts.specs.Servable.{IsServable};
ghost use Rattle.td_cli_host.specs.Rings.{RingsAreRead};
ghost use Rattle.td_cli_host.specs.ServedInput.{AreCodesOf, IsServedInput, CanBeShown, RefusesServing};

use crate::gates::{GATES_OF_EACH, gates_of};
use crate::laws::served_can_be_shown;
use crate::rings::{Readers, job_readers};
use std::alloc::{AllocError, AllocGlobal, Global};
use std::sync::Wait;
use std::thread::Threads;
use td_cli_input::host::parse_host_input;
use td_cli_input::refusal::InputError;
use td_code::code_of;
use td_core::module::{Entry, Module};
use td_front::laws as texts;
use td_host::ServedJob;
use td_host::job::serve_job;
use td_job_host::laws as jobs;
use td_live::gate::Gate;
use td_lower_means::laws::arguments_fit;
use td_num::items::Items;
use td_posts::job::HostJob;
use td_posts::reply::Reply;
use td_report_facts::laws::copies_have_room;
use td_takes::Take;
use td_verify::verify::Verified;

/// The replies to the posts of an input's job, by guest and number, the takes of its rings, by ring and number, and what names them in a
/// report: the module and the entry point of each version, and the module of descriptors, where there are rings.
#[derive(Drop)]
pub struct ServedInput {
    pub formats: Items<Module>,
    pub entries: Items<Entry>,
    pub replies: Items<Reply>,
    pub ring: Option<Module>,
    pub takes: Items<Take>,
}

/// The codes of modules, in their order. `AllocError`: there was no memory for one.
fn codes_of(alloc: Global, formats: &[Module]) -> Result<Vec<Verified>, AllocError>
    requires { All IsChecked formats.now }
    ensures { IfOk result (λ codes. AreCodesOf codes.items formats.now) }
{
    let mut codes = Vec::new(alloc);
    for format in formats {
        codes.push(code_of(alloc, format)?)?;
    }
    Ok(codes)
}

/// The codes by which a host can serve a job, one for each version. `AllocError`: there was no memory for them.
pub fn job_codes(alloc: Global, job: &HostJob) -> Result<Vec<Verified>, AllocError>
    requires checked { All IsChecked job.now.formats }
    requires servable { IsServable job.now }
    requires fits { FitsVersions job.now }
    requires sound { IsSoundHost job.now }
    ensures { IfOk result (λ codes. IsJobCode codes.items job.now) }
{
    arguments_fit();
    copies_have_room();
    codes_of(alloc, job.formats.as_slice())
}

/// What was served of an input's job, and what names it.
fn served_of(served: ServedJob, ring: Option<Module>) -> ServedInput
    ensures { result ≡ record { formats = served.job.formats; entries = served.job.entries; replies = served.replies; ring = ring; takes = served.takes } }
{
    let ServedJob {
        job,
        replies,
        takes,
    } = served;
    let HostJob {
        formats,
        entries,
        args: _,
        cells: _,
        rooms: _,
        words: _,
        workers: _,
        guests: _,
        rings: _,
    } = job;
    ServedInput {
        formats,
        entries,
        replies,
        ring,
        takes,
    }
}

/// Serves the job of an input, with the first gates of each half: sixteen for workers, and then sixteen for guests. It may
/// wait: a promise is kept where it returns.
///
/// `Refused`: the input has no marker, its text is no module, or its job is none; or the job has rings, and the text `RING` stands for no
/// module of descriptors; nothing was opened then. `NoMemory`: there was no memory; no thread was started then, and no word loaded. That
/// the marker is missing is told in any case.
pub fn serve_input<R: AllocGlobal + Threads + Wait + Sync, G: Gate + Send + Drop>(
    rt: &R,
    input: &[u8],
    gates: Vec<G>,
) -> Result<ServedInput, InputError>
    requires short { length input.now < 2 ^ 32 - 1 }
    requires gates { length gates.items ≡ 2 * GATES_OF_EACH }
    ensures served { IfOk result (λ s. IsServedInput input.now s.formats s.entries s.replies s.ring s.takes) }
    ensures shown { IfOk result (λ s. CanBeShown s.formats s.entries s.replies s.takes) }
    ensures cause { IfErr result (HasCause (RefusesServing input.now)) }
    ensures complete { (m : Module) (job : HostJob) → IsHostInput input.now m job → RingsAreRead job.rings → IfErr result (λ e. e ≡ InputError.NoMemory) }
    ensures refused { (refusal : Refusal) → RefusesServing input.now refusal → IsErr result }
    ensures no_job { ((n : ℕ) → IsMarker input.now n → ⊥) → IsErrOf result (InputError.Refused Refusal.NoJob) }
{
    served_can_be_shown();
    texts::one_answer_each();
    jobs::one_answer_each();
    let given = parse_host_input(rt.alloc(), input)?;
    let readers = job_readers(rt.alloc(), &given.job)?;
    let Ok(codes) = job_codes(rt.alloc(), &given.job) else {
        return Err(InputError::NoMemory);
    };
    let workers = given.job.workers as usize;
    let guests = given.job.guests.len();
    let Ok(gates) = gates_of(gates, workers, guests) else {
        return Err(InputError::NoMemory);
    };
    let Readers { module, descrs } = readers;
    match serve_job(rt, rt.alloc(), codes, given.job, descrs, gates) {
        Ok(served) => Ok(served_of(served, module)),
        Err(_) => Err(InputError::NoMemory),
    }
}
