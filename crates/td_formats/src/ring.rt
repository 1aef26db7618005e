//! Descriptors of a ring in a guest's memory (own format).

ghost use Rattle.std.specs.Prelude.{◌≡◌, ◌<◌, ◌^◌, length, codes, slice_index};

use crate::format::MOST_TEXT;

/// The format as a module text, whose entry point is `DESC`: where in a buffer a message lies, in bytes, and the guest's number
/// for it. Its arguments are the bytes of the buffer, and how many bytes a message has at most. A descriptor is refused whose
/// message passes the buffer, is longer than that, or has flags.
pub const RING: &str = "\
output typedef struct _DESC_OUT { UINT32 Place; UINT32 Size; UINT16 Id; } DESC_OUT;
entrypoint typedef struct _DESC(UINT32 room, UINT32 most, mutable DESC_OUT *r) {
  UINT32 place { place <= room } {:act r->Place = place;};
  UINT32 size { size <= room - place && size <= most } {:act r->Size = size;};
  UINT16 id {:act r->Id = id;}; UINT16 flags { flags == 0 }; UINT32 reserved; } DESC;
";

/// What a descriptor delivers: little-endian numbers of its first twelve bytes.
#[derive(Clone, Copy, PartialEq, Eq)]
pub struct DescOut {
    /// The byte of the buffer at which the message begins, from 0.
    pub place: u32,
    /// How many bytes it has.
    pub size: u32,
    /// The number by which the guest knows the message.
    pub id: u16,
}

/// The record of a descriptor's three cells, in the order of the module's output record: each field is the cell of its place.
/// Takes no memory.
pub fn desc_out(cells: &[u64]) -> DescOut
    requires count { length cells.now ≡ 3 }
    requires place { slice_index cells.now 0 < 2 ^ 32 }
    requires size { slice_index cells.now 1 < 2 ^ 32 }
    requires id { slice_index cells.now 2 < 2 ^ 16 }
    ensures place { result.place ≡ slice_index cells.now 0 }
    ensures size { result.size ≡ slice_index cells.now 1 }
    ensures id { result.id ≡ slice_index cells.now 2 }
{
    DescOut {
        place: cells[0] as u32,
        size: cells[1] as u32,
        id: cells[2] as u16,
    }
}

/// The text of `RING`.
pub fn ring_text() -> &'static [u8]
    ensures text { result.now ≡ RING.now }
    ensures short { length result.now < MOST_TEXT }
{
    RING.as_bytes()
}

/// The name of its one entry point.
pub fn ring_entry() -> &'static [u8]
    ensures { result.now ≡ codes "DESC" }
{
    b"DESC"
}
