//! The copy buffers of a host job, and the total of their bytes.

ghost use Rattle.std.specs.Prelude.{◌≡◌, ◌≢◌, ◌-◌, ◌^◌, [], map, min, option_map, OnOk, IfOk, IfErr};
ghost use Rattle.serde_json.specs.View.{items_view};
ghost use Rattle.td_job.specs.Fields.{IsFirst};
ghost use Rattle.td_posts.specs.Servable.{room_in};
ghost use Rattle.td_job_host.specs.Guests.{each_script};
ghost use Rattle.td_job_host.specs.Rings.{each_ring};
ghost use Rattle.td_job_host.specs.declared.totals.Total.TheVariants.{Copies};
ghost use Rattle.td_job_host.specs.Totals.{total_fault};
ghost use Rattle.td_job_host.specs.Swaps.{buffers_in};
ghost use Rattle.td_job_host.specs.HostJobs.{rooms_in};

use crate::totals::Total;
use serde_json::Value;
use std::alloc::{AllocError, Global};
use td_core::module::{Buffer, TypeDef};
use td_job::error::JobError;
use td_num::items::Items;

/// The copy buffers of an entry point with this definition.
pub(crate) fn buffers_in(definition: Option<&TypeDef>) -> &[Buffer]
    ensures { result.now ≡ buffers_in (option_map (λ d. d.now) definition.entry) }
{
    match definition {
        None => &[],
        Some(definition) => definition.buffers.as_slice(),
    }
}

/// For how many bytes these copy buffers have room in all; at most 2^64 - 1.
fn room_of(buffers: &[Buffer]) -> u64
    ensures { result ≡ min (room_in (map (λ b. b.room) buffers.now)) (2 ^ 64 - 1) }
{
    let mut sum = 0u64;
    for buffer in buffers {
        sum = sum.saturating_add(u64::from(buffer.room));
    }
    sum
}

/// Tests the total of the bytes of the copy buffers of these guests' posts and of these rings' takes, each of which has these buffers.
/// J8: they are more than 16,777,216. Takes no memory.
pub(crate) fn check_copies(
    guests: &[Value],
    rings: &[Value],
    buffers: &[Buffer],
) -> Result<(), JobError>
    ensures ok { OnOk result (total_fault (Copies (room_in (map (λ b. b.room) buffers.now))) (each_script (items_view guests.now)) (each_ring (items_view rings.now)) ≡ []) }
    ensures err { IfErr result (IsFirst (total_fault (Copies (room_in (map (λ b. b.room) buffers.now))) (each_script (items_view guests.now)) (each_ring (items_view rings.now)))) }
    ensures broken { IfErr result (λ e. e ≢ JobError.NoMemory) }
{
    Total::Copies(room_of(buffers)).check(guests, rings)
}

/// For how many bytes each copy buffer of an entry point with this definition has room.
pub(crate) fn rooms_of(
    alloc: Global,
    definition: Option<&TypeDef>,
) -> Result<Items<u32>, AllocError>
    ensures { IfOk result (λ rooms. rooms ≡ rooms_in (option_map (λ d. d.now) definition.entry)) }
{
    let buffers = buffers_in(definition);
    let mut rooms = Items::new(alloc);
    for buffer in buffers {
        rooms.push(buffer.room)?;
    }
    Ok(rooms)
}
