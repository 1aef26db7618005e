//! The readers of a job's rings.

ghost use Rattle.std.specs.Prelude.{◌≡◌, ◌≢◌, ◌<◌, ◌*◌, ◌⊎◌, length, IfOk, IfErr};
ghost use Rattle.std.specs.List.{All};
ghost use Rattle.td_core.specs.declared.module.Module.{Module};
ghost use Rattle.td_front.specs.Checked.{IsChecked};
ghost use Rattle.td_posts.specs.Servable.{IsServable};
ghost use Rattle.td_host.specs.Gathered.{IsReaderOf, AreReadersOf, IsReaderBy};
ghost use Rattle.td_cli_host.specs.Rings.{IsRingModule, IsRingOf, NoRingModule};

use std::alloc::{AllocError, Global};
use td_arith::laws::evaluated_is_sound;
use td_cli_input::refusal::{InputError, Refusal};
use td_code::code_of;
use td_core::module::Module;
use td_descr::laws::{shape_fits, shape_has_no_buffers, shape_lies_within};
use td_descr::{Descr, is_ring};
use td_formats::ring_text;
use td_front::{FrontError, check_module};
use td_lower_means::laws::arguments_fit;
use td_posts::job::HostJob;
use td_posts::ring::RingJob;

/// A module text that is refused is none of descriptors. Out of memory is told as such.
fn ring_refusal(error: FrontError) -> InputError
    ensures memory { error ≡ FrontError.NoMemory → result ≡ InputError.NoMemory }
    ensures refused { error ≢ FrontError.NoMemory → result ≡ InputError.Refused Refusal.NoRing }
{
    match error {
        FrontError::NoMemory => InputError::NoMemory,
        _ => InputError::Refused(Refusal::NoRing),
    }
}

/// The module of descriptors. `Refused`: the text `RING` stands for none. `NoMemory`: there was no memory for it.
fn ring_module(alloc: Global) -> Result<Module, InputError>
    ensures module { IfOk result IsRingModule }
    ensures checked { IfOk result IsChecked }
    ensures err { IfErr result (λ e. (e ≡ InputError.NoMemory) ⊎ ((e ≡ InputError.Refused Refusal.NoRing) × ((m : Module) → IsRingModule m → ⊥))) }
{
    match check_module(alloc, ring_text()) {
        Err(error) => Err(ring_refusal(error)),
        Ok(module) => if is_ring(&module) {
            Ok(module)
        } else {
            Err(InputError::Refused(Refusal::NoRing))
        },
    }
}

/// A reader of a ring in a buffer of so many bytes, by the module of descriptors. `AllocError`: there was no memory for it.
fn reader_of(alloc: Global, m: &Module, ring: RingJob, room: u32) -> Result<Descr, AllocError>
    requires module { IsRingModule m.now }
    requires checked { IsChecked m.now }
    requires some { 0 < ring.entries }
    ensures reads { IfOk result (λ d. IsReaderOf room ring d) }
    ensures by { IfOk result (IsReaderBy m.now) }
{
    evaluated_is_sound();
    arguments_fit();
    shape_fits();
    shape_lies_within();
    shape_has_no_buffers();
    let code = code_of(alloc, m)?;
    Descr::arm(alloc, code, ring.entries, room, ring.most)
}

/// A reader of each ring in a buffer of so many bytes, by the module of descriptors. `AllocError`: there was no memory for one.
fn readers_of(
    alloc: Global,
    m: &Module,
    rings: &[RingJob],
    room: u32,
) -> Result<Vec<Descr>, AllocError>
    requires module { IsRingModule m.now }
    requires checked { IsChecked m.now }
    requires some { All (λ r. 0 < r.entries) rings.now }
    ensures readers { IfOk result (λ descrs. AreReadersOf room rings.now descrs.items) }
    ensures by { IfOk result (λ descrs. All (IsReaderBy m.now) descrs.items) }
{
    let mut descrs = Vec::new(alloc);
    for ring in rings {
        let descr = reader_of(alloc, m, *ring, room)?;
        descrs.push(descr)?;
    }
    Ok(descrs)
}

/// What reads the rings of a job: the module of descriptors, where there are rings, and a reader for each of them.
#[derive(Drop)]
pub struct Readers {
    pub module: Option<Module>,
    pub descrs: Vec<Descr>,
}

/// What reads the rings of a job. `Refused`: there are rings, and the text `RING` stands for no module of descriptors. `NoMemory`: there
/// was no memory for it.
pub fn job_readers(alloc: Global, job: &HostJob) -> Result<Readers, InputError>
    requires { IsServable job.now }
    ensures readers { IfOk result (λ r. AreReadersOf (8 * length job.now.words) job.now.rings r.descrs.items) }
    ensures by { IfOk result (λ r. (m : Module) × IsRingOf job.now.rings m r.«module» × All (IsReaderBy m) r.descrs.items) }
    ensures err { IfErr result (λ e. (e ≡ InputError.NoMemory) ⊎ ((e ≡ InputError.Refused Refusal.NoRing) × NoRingModule job.now.rings)) }
{
    let rings = job.rings.as_slice();
    if rings.is_empty() {
        return Ok(Readers {
            module: None,
            descrs: Vec::new(alloc),
        });
    }
    let module = ring_module(alloc)?;
    let room = 8 * job.words.len() as u32;
    let Ok(descrs) = readers_of(alloc, &module, rings, room) else {
        return Err(InputError::NoMemory);
    };
    Ok(Readers {
        module: Some(module),
        descrs,
    })
}
