//! The lines of copies.

ghost use Rattle.std.specs.Prelude.{◌≡◌, ◌++◌, List, ℕ, map, flat_map};
ghost use Rattle.td_core.specs.Entries.{entry_definition};
ghost use Rattle.td_io.specs.States.{Writes};
ghost use Rattle.td_report.specs.Report.{entry_buffers, with_bytes, copy_value, copy_line};

use crate::pieces::write_pieces;
use crate::written::write_spaced;
use td_core::entries::{entry_definition, name_pieces};
use td_core::module::{Buffer, Entry, Module};
use td_io::{Sink, WriteFault};
use td_num::items::Items;

/// A copy buffer, as a report sees it.
pub trait CopyBuffer {
    /// The bytes that it holds.
    ghost held: { Self → List ℕ };

    /// The bytes that it holds.
    fn bytes(&self) -> &[u8]
        ensures { result.now ≡ held self.now };
}

impl CopyBuffer for Items<u8> {
    ghost held = { λ bytes. bytes };

    fn bytes(&self) -> &[u8] {
        self.as_slice()
    }
}

impl CopyBuffer for td_stream::copies::Buffer {
    ghost held = { λ buffer. buffer.held };

    fn bytes(&self) -> &[u8] {
        self.as_slice()
    }
}

/// The copy buffers of an entry point; none where the module has no such entry point.
pub(crate) fn buffers_of(m: &Module, entry: Entry) -> &[Buffer]
    ensures { result.now ≡ entry_buffers (entry_definition m.now entry.number) }
{
    match entry_definition(m, entry) {
        None => &[],
        Some(definition) => definition.buffers.as_slice(),
    }
}

#[tactic(auto, unfolding(crate::specs::Report::copy_line))]
fn write_copy<O: Sink>(
    out: &mut O,
    m: &Module,
    buffer: Buffer,
    bytes: &[u8],
) -> Result<(), WriteFault>
    ensures { Writes (O.state out.old) (O.state out.new) (copy_line m.now (copy_value buffer bytes.now)) result }
{
    let name = name_pieces(m, buffer.name);
    write_pieces(out, &[b"copy ", name.part, name.dot, name.own])?;
    write_spaced(out, bytes)?;
    write_pieces(out, &[b"\n"])
}

/// The lines of copies, one for each buffer of the entry point, in their order.
pub(crate) fn write_copies<O: Sink, B: CopyBuffer>(
    out: &mut O,
    m: &Module,
    buffers: &[Buffer],
    copies: &[B],
) -> Result<(), WriteFault>
    ensures { Writes (O.state out.old) (O.state out.new) (flat_map (copy_line m.now) (with_bytes buffers.now (map B.held copies.now))) result }
{
    for (index, buffer) in buffers.iter().enumerate() {
        let Some(held) = copies.get(index) else {
            break;
        };
        write_copy(out, m, *buffer, held.bytes())?;
    }
    Ok(())
}
