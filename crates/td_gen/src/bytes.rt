//! The bytes of a message.

ghost use Rattle.std.specs.Prelude.{◌≡◌, ◌+◌, ◌<◌, ◌≤◌, ◌++◌, length, IfOk, OnOk};
ghost use Rattle.td_gen.specs.Message.{header_of, header_length, ipv4_header, message_bytes, number_pair, rndis_header};

use crate::fillers::push_fillers;
use crate::kind::{MOST_PAYLOAD, fillers_before, fillers_behind, format_of, payload_of};
use std::alloc::{AllocError, Global};
use td_formats::Format;

/// A type of Ethernet: IPv4.
const ETHERNET_TYPE: [u8; 2] = [0x08, 0x00];

/// A TCP header from its data offset on: six words of 32 bits, SYN, a window, and the option for segments of 1,460 bytes.
const TCP_REST: [u8; 12] = [
    0x60, 0x02, 0xff, 0xff, 0x00, 0x00, 0x00, 0x00, 0x02, 0x04, 0x05, 0xb4,
];

/// Puts an IPv4 header behind the bytes, but for its two addresses. `AllocError`: there was no memory for it.
fn push_ipv4_header(bytes: &mut Vec<u8>, payload: u32) -> Result<(), AllocError>
    requires { payload < MOST_PAYLOAD }
    ensures { OnOk result (bytes.new.items ≡ bytes.old.items ++ ipv4_header payload) }
{
    let total = (20 + payload) as u16;
    bytes.extend_from_slice(&[0x45, 0x00])?;
    bytes.extend_from_slice(&total.to_be_bytes())?;
    bytes.extend_from_slice(&[0x00, 0x00, 0x00, 0x00, 0x40, 0x06, 0x00, 0x00])
}

/// Puts two numbers behind the bytes, the byte of least weight first. `AllocError`: there was no memory for them.
#[tactic(auto, unfolding(crate::specs::Message::number_pair))]
fn push_pair(bytes: &mut Vec<u8>, first: u32, second: u32) -> Result<(), AllocError>
    ensures { OnOk result (bytes.new.items ≡ bytes.old.items ++ number_pair first second) }
{
    bytes.extend_from_slice(&first.to_le_bytes())?;
    bytes.extend_from_slice(&second.to_le_bytes())
}

/// Puts the header of a packet message of RNDIS behind the bytes. `AllocError`: there was no memory for it.
fn push_rndis_header(bytes: &mut Vec<u8>, payload: u32) -> Result<(), AllocError>
    requires { payload < MOST_PAYLOAD }
    ensures { OnOk result (bytes.new.items ≡ bytes.old.items ++ rndis_header payload) }
{
    push_pair(bytes, 1, 44 + payload)?;
    push_pair(bytes, 36, payload)?;
    bytes.extend_from_slice(&[0; 28])
}

/// Puts the header of a message with such a payload behind the bytes. `AllocError`: there was no memory for it.
#[tactic(auto, unfolding(crate::specs::Message::number_pair))]
fn push_header(bytes: &mut Vec<u8>, format: Format, payload: u32) -> Result<(), AllocError>
    requires { payload < MOST_PAYLOAD }
    ensures header { OnOk result (bytes.new.items ≡ bytes.old.items ++ header_of format payload) }
    ensures long { OnOk result (length bytes.new.items ≡ length bytes.old.items + header_length format) }
    ensures few { OnOk result (length bytes.new.items ≤ length bytes.old.items + 44) }
{
    match format {
        Format::Ethernet => bytes.extend_from_slice(&ETHERNET_TYPE),
        Format::Ipv4 => push_ipv4_header(bytes, payload),
        Format::Tcp => bytes.extend_from_slice(&TCP_REST),
        Format::Rndis => push_rndis_header(bytes, payload),
    }
}

/// The bytes of message n. `AllocError`: there was no memory for them.
pub(crate) fn message_bytes(alloc: Global, n: u32) -> Result<Vec<u8>, AllocError>
    ensures bytes { IfOk result (λ bytes. bytes.items ≡ message_bytes n) }
    ensures few { IfOk result (λ bytes. length bytes.items < 2000) }
{
    let format = format_of(n);
    let payload = payload_of(n);
    let mut bytes = Vec::new(alloc);
    push_fillers(&mut bytes, n, fillers_before(format))?;
    push_header(&mut bytes, format, payload)?;
    push_fillers(&mut bytes, n, fillers_behind(format) + payload)?;
    Ok(bytes)
}
