//! Entries of the code's tables.

ghost use Rattle.std.specs.Prelude.{◌≡◌, ◌<◌, length, slice_index};
ghost use Rattle.td_ir.specs.Tables.{map_of, routine_of};

use td_ir::tables::{Parts, Routine};

/// A routine by its number.
pub fn routine_at(parts: &Parts, n: usize) -> &Routine
    requires { n < length parts.now.routines }
    ensures { result.now ≡ routine_of parts.now n }
{
    &parts.routines.as_slice()[n]
}

/// A cell map by its number.
pub fn map_at(parts: &Parts, map: usize) -> &[u32]
    requires { map < length parts.now.maps }
    ensures { result.now ≡ map_of parts.now map }
{
    let numbers = &parts.maps.as_slice()[map];
    numbers.as_slice()
}

/// The room of a routine's buffer.
pub fn room_at(parts: &Parts, n: usize, buffer: usize) -> u32
    requires routine { n < length parts.now.routines }
    requires buffer { buffer < length (routine_of parts.now n).buffers }
    ensures { result ≡ slice_index (routine_of parts.now n).buffers buffer }
{
    let routine = routine_at(parts, n);
    routine.buffers.as_slice()[buffer]
}
