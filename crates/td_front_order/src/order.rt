//! The order of things that use one another.

ghost use Rattle.std.specs.Prelude.{◌≡◌, ◌<◌, ◌^◌, false, length, replicate, IfOk};
ghost use Rattle.td_front_order.specs.Order.{IsWithin, order};

use crate::enlisting::{enlist_all, release};
use crate::waiting::empty_lists;
use std::alloc::{AllocError, Global};
use std::collections::BTreeSet;
use td_num::items::Items;

/// The numbers in their order, where `graph` has for each those that it uses. `AllocError`: out of memory.
pub fn order(alloc: Global, graph: &[Items<u32>]) -> Result<Items<u32>, AllocError>
    requires within { IsWithin graph.now }
    requires small { length graph.now < 2 ^ 32 }
    ensures { IfOk result (λ numbers. numbers ≡ order graph.now) }
{
    let mut all_flags = vec![in alloc; false; graph.len()]?;
    let mut lists = empty_lists(alloc, graph.len())?;
    let mut places = vec![in alloc; 0usize; graph.len()]?;
    take_all(
        alloc,
        graph,
        all_flags.as_mut_slice(),
        lists.as_mut_slice(),
        places.as_mut_slice(),
    )
}

// Takes one by one, where nothing is taken yet.
fn take_all(
    alloc: Global,
    graph: &[Items<u32>],
    flags: &mut [bool],
    waiting: &mut [Items<u32>],
    cursors: &mut [usize],
) -> Result<Items<u32>, AllocError>
    requires within { IsWithin graph.now }
    requires small { length graph.now < 2 ^ 32 }
    requires flags { flags.old ≡ replicate (length graph.now) false }
    requires lists { length waiting.old ≡ length graph.now }
    ensures { IfOk result (λ numbers. numbers ≡ order graph.now) }
{
    let mut ready = BTreeSet::new(alloc);
    enlist_all(graph, flags, waiting, cursors, &mut ready)?;
    let mut taken = Items::new(alloc);
    let mut turn = 0;
    while turn < graph.len() {
        let Some(number) = ready.pop_first() else {
            return Ok(taken);
        };
        taken.push(number)?;
        flags[number as usize] = true;
        release(alloc, graph, flags, waiting, cursors, &mut ready, number)?;
        turn += 1;
    }
    Ok(taken)
}
