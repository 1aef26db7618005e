//! Where copies stand.

ghost use Rattle.std.specs.Prelude.{◌≡◌, ◌+◌, ◌≤◌, slice_index};
ghost use Rattle.td_meaning.specs.Meaning.{with_copy};

use crate::actions::set_cell;
use td_core::module::CopyOut;

// The place at a number of a list, and at the number after it; 0 past it.
fn place_from(places: &[usize], number: u32, further: usize) -> usize
    requires { further ≤ 1 }
    ensures { result ≡ slice_index places.now (number + further) }
{
    places.get(number as usize + further).copied().unwrap_or(0)
}

/// Notes where the bytes stand that a buffer holds from now on, and how many they are.
pub fn put_copy(copy: CopyOut, places: &[usize], start: u64, count: u64, cells: &mut [u64])
    ensures { cells.new ≡ with_copy copy places.now start count cells.old }
{
    set_cell(cells, place_from(places, copy.cell, 0), start);
    set_cell(cells, place_from(places, copy.cell, 1), count);
}
