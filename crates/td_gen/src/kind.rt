//! What kind of message stands at a number.

ghost use Rattle.std.specs.Prelude.{◌≡◌, ◌<◌, ◌≤◌, IfOk};
ghost use Rattle.td_gen.specs.Message.{args_given, args_of, cell_count, fillers_before, fillers_behind, format_of, payload_of};

use std::alloc::{AllocError, Global};
use td_formats::Format;
use td_num::items::Items;

/// The payload of a message has fewer bytes.
pub const MOST_PAYLOAD: u32 = 1400;

/// How many bytes more the payload has with each four messages.
pub const PAYLOAD_STEP: u32 = 13;

/// The format of message n: the four take turns.
pub fn format_of(n: u32) -> Format
    ensures { result ≡ format_of n }
{
    let place = n % 4;
    if place == 0 {
        Format::Ethernet
    } else if place == 1 {
        Format::Ipv4
    } else if place == 2 {
        Format::Tcp
    } else {
        Format::Rndis
    }
}

/// How many bytes the payload of message n has.
pub(crate) fn payload_of(n: u32) -> u32
    ensures payload { result ≡ payload_of n }
    ensures short { result < MOST_PAYLOAD }
{
    let bytes = u64::from(PAYLOAD_STEP) * u64::from(n / 4);
    (bytes % u64::from(MOST_PAYLOAD)) as u32
}

/// How many filler bytes stand before the header.
pub(crate) fn fillers_before(format: Format) -> u32
    ensures fillers { result ≡ fillers_before format }
    ensures few { result ≤ 12 }
{
    match format {
        Format::Ethernet | Format::Tcp => 12,
        Format::Ipv4 | Format::Rndis => 0,
    }
}

/// How many filler bytes stand behind it, before the payload.
pub(crate) fn fillers_behind(format: Format) -> u32
    ensures fillers { result ≡ fillers_behind format }
    ensures few { result ≤ 8 }
{
    match format {
        Format::Ipv4 => 8,
        Format::Ethernet | Format::Tcp | Format::Rndis => 0,
    }
}

/// How many cells the format's entry point has.
pub(crate) fn cell_count(format: Format) -> usize
    ensures { result ≡ cell_count format }
{
    match format {
        Format::Ethernet => 3,
        Format::Ipv4 | Format::Rndis => 5,
        Format::Tcp => 6,
    }
}

/// The one argument of a format's entry point, where it has one: the bytes of a message with such a payload.
fn room_of(format: Format, payload: u32) -> Option<u64>
    requires { payload < MOST_PAYLOAD }
    ensures { args_of format payload ≡ args_given result }
{
    let payload = u64::from(payload);
    match format {
        Format::Ethernet => None,
        Format::Ipv4 => Some(20 + payload),
        Format::Tcp => Some(24 + payload),
        Format::Rndis => Some(44 + payload),
    }
}

/// The arguments of a message with such a payload. `AllocError`: there was no memory for them.
pub(crate) fn args_of(alloc: Global, format: Format, payload: u32) -> Result<Items<u64>, AllocError>
    requires { payload < MOST_PAYLOAD }
    ensures { IfOk result (λ args. args ≡ args_of format payload) }
{
    match room_of(format, payload) {
        None => Ok(Items::new(alloc)),
        Some(room) => Items::copy_of(alloc, &[room]),
    }
}
