//! Copy buffers of routines and entry points. Memory runs out only once a first room or name was read: none is taken for a
//! count alone.

ghost use Rattle.std.specs.Prelude.{◌≡◌};
ghost use Rattle.td_image.specs.Format.{times};
ghost use Rattle.td_image.specs.Image as format;
ghost use Rattle.td_image.specs.Reading.{Reads, IsDecided, RanOutOnlyIf};

use crate::fault::{Cause, ReadError};
use crate::fields::{name_place, u32_at, up_to, wrong};
use crate::limits::{MOST_BUFFERS, MOST_ROOM};
use crate::version::ImageVersion;
use std::alloc::Global;
use td_core::module::NameId;
use td_num::items::Items;

// The room of a buffer, in bytes.
fn room_at(bytes: &[u8]) -> Result<(u32, &[u8]), ReadError>
    ensures read { Reads (λ x. (x.0, x.1.now)) result (format.buffer_room.read bytes.now) }
    ensures decided { IsDecided result }
{
    let (n, rest) = u32_at(bytes)?;
    if 1 <= n && n <= MOST_ROOM {
        Ok((n, rest))
    } else {
        Err(wrong(Cause::Field, bytes))
    }
}

fn so_many_rooms(alloc: Global, count: u32, bytes: &[u8]) -> Result<(Items<u32>, &[u8]), ReadError>
    ensures read { Reads (λ x. (x.0, x.1.now)) result ((times count format.buffer_room).read bytes.now) }
    ensures memory { RanOutOnlyIf result ((times count format.buffer_room).RunsOut bytes.now) }
{
    let mut rows = Items::new(alloc);
    let mut rest = bytes;
    for _ in 0..count {
        let (row, after) = room_at(rest)?;
        rows.push(row)?;
        rest = after;
    }
    Ok((rows, rest))
}

#[tactic(auto, unfolding(crate::specs::Image::rooms))]
fn rooms_of(alloc: Global, bytes: &[u8]) -> Result<(Items<u32>, &[u8]), ReadError>
    ensures read { Reads (λ x. (x.0, x.1.now)) result (format.rooms.read bytes.now) }
    ensures memory { RanOutOnlyIf result (format.rooms.RunsOut bytes.now) }
{
    let (n, rest) = up_to(bytes, MOST_BUFFERS as usize)?;
    so_many_rooms(alloc, n, rest)
}

/// The room of each buffer of a routine. Before version 3 there are none.
pub(crate) fn buffers_of(
    alloc: Global,
    version: ImageVersion,
    bytes: &[u8],
) -> Result<(Items<u32>, &[u8]), ReadError>
    ensures read { Reads (λ x. (x.0, x.1.now)) result ((format.buffers version).read bytes.now) }
    ensures memory { RanOutOnlyIf result ((format.buffers version).RunsOut bytes.now) }
{
    match version {
        ImageVersion::First => Ok((Items::new(alloc), bytes)),
        ImageVersion::Second => Ok((Items::new(alloc), bytes)),
        ImageVersion::Third => rooms_of(alloc, bytes),
        ImageVersion::Fourth => rooms_of(alloc, bytes),
    }
}

/// The name of each buffer of an entry point.
pub(crate) fn buffer_names_of(
    alloc: Global,
    count: usize,
    names: usize,
    bytes: &[u8],
) -> Result<(Items<NameId>, &[u8]), ReadError>
    ensures read { Reads (λ x. (x.0, x.1.now)) result ((times count (format.name_place names)).read bytes.now) }
    ensures memory { RanOutOnlyIf result ((times count (format.name_place names)).RunsOut bytes.now) }
{
    let mut rows = Items::new(alloc);
    let mut rest = bytes;
    for _ in 0..count {
        let (row, after) = name_place(rest, names)?;
        rows.push(row)?;
        rest = after;
    }
    Ok((rows, rest))
}
