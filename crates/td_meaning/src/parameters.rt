//! Where the cells of a definition stand among all cells.

ghost use Rattle.std.specs.Prelude.{◌≡◌, ◌<◌, length, IfOk, OnErr, map, slice_index};
ghost use Rattle.td_num.specs.Numbers.{places_from};

use std::alloc::{AllocError, Global};

/// The place at a number of a list; 0 past it.
pub fn place_at(places: &[usize], number: u32) -> usize
    ensures { result ≡ slice_index places.now number }
{
    places.get(number as usize).copied().unwrap_or(0)
}

/// The places of a definition's cells, from those of the definition around it. `AllocError`: it has cells, and there was
/// no memory for their places.
pub fn cells_of(alloc: Global, own: &[u32], places: &[usize]) -> Result<Vec<usize>, AllocError>
    ensures ok { IfOk result (λ cells. cells.items ≡ map (slice_index places.now) own.now) }
    ensures memory { OnErr result (0 < length own.now) }
{
    let mut cells = Vec::new(alloc);
    for number in own {
        cells.push(place_at(places, *number))?;
    }
    Ok(cells)
}

/// The places from 0 on, so many of them. `AllocError`: they are more than none, and there was no memory for them.
pub fn places_below(alloc: Global, count: usize) -> Result<Vec<usize>, AllocError>
    ensures ok { IfOk result (λ places. places.items ≡ places_from 0 count) }
    ensures memory { OnErr result (0 < count) }
{
    let mut places = Vec::new(alloc);
    for place in 0..count {
        places.push(place)?;
    }
    Ok(places)
}
