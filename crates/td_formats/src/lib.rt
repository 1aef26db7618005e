//! Four network formats and the descriptors of a ring as module texts, and their delivered cells as records; and the value of an
//! Ethernet frame. The layer above rests on one promise: each field of a record is the cell of its place. That a text says what its
//! standard says is for a reader of the text.
#![tactic(auto)]

pub mod ethernet;
pub mod format;
pub mod ipv4;
pub mod ring;
pub mod rndis;
pub mod tcp;
mod values;

pub use ethernet::{ETHERNET, EthernetOut, ethernet_out};
pub use format::Format;
pub use ipv4::{IPV4, Ipv4Out, ipv4_out};
pub use ring::{DescOut, RING, desc_out, ring_entry, ring_text};
pub use rndis::{RNDIS, RndisOut, rndis_out};
pub use tcp::{TCP, TcpOut, tcp_out};
pub use values::ethernet_value;
