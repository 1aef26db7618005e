//! Heights: nothing is lower than what it uses.

ghost use Rattle.std.specs.Prelude.{◌≡◌, ◌<◌, ◌^◌, true, length, nat_le};
ghost use Rattle.std.specs.List.{list_all};
ghost use Rattle.td_front_order.specs.Heights.{height, AreHeights};

use crate::components::{finished, settled};
use crate::flags::used_by;
use std::alloc::{AllocError, Global};
use td_num::items::Items;

/// How high one is; 0 where there is no height.
pub fn height_of(heights: &[u32], number: u32) -> u32
    ensures { result ≡ height heights.now number }
{
    match heights.get(number as usize) {
        Some(height) => *height,
        None => 0,
    }
}

// Whether one is no higher than so much.
fn is_no_higher(heights: &[u32], most: u32, number: u32) -> bool
    ensures { result ≡ nat_le (height heights.now number) most }
{
    height_of(heights, number) <= most
}

// Whether none of these is higher.
fn are_no_higher(heights: &[u32], most: u32, used: &[u32]) -> bool
    ensures { result ≡ list_all (λ j. nat_le (height heights.now j) most) used.now }
{
    for number in used {
        if !is_no_higher(heights, most, *number) {
            return false;
        }
    }
    true
}

/// Whether nothing is lower than what it uses.
pub fn are_heights(graph: &[Items<u32>], heights: &[u32]) -> bool
    requires { length graph.now < 2 ^ 32 }
    ensures { result ≡ true → AreHeights graph.now heights.now }
{
    let mut number = 0u32;
    while (number as usize) < graph.len() {
        if !are_no_higher(heights, height_of(heights, number), used_by(graph, number)) {
            return false;
        }
        number += 1;
    }
    true
}

/// Heights such that those that use each other, in a circle, are as high as one another, and all else is higher than what it
/// uses: by Kosaraju's and Sharir's way to the strongly connected components. No clause says so: who rests on them looks at them
/// first (`are_heights`). `AllocError`: out of memory.
pub fn heights_of(alloc: Global, graph: &[Items<u32>]) -> Result<Items<u32>, AllocError> {
    let last = finished(alloc, graph)?;
    settled(alloc, graph, last.as_slice())
}
