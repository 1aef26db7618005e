//! Lists of those that wait for one.

ghost use Rattle.std.specs.Prelude.{◌≡◌, ◌<◌, [], ◌∷◌, ◌++◌, length, replicate, set, IfOk, OnOk};
ghost use Rattle.td_front_order.specs.Order.{used_by};

use std::alloc::{AllocError, Global};
use td_num::items::Items;

/// So many empty lists. `AllocError`: out of memory.
pub(crate) fn empty_lists(alloc: Global, count: usize) -> Result<Vec<Items<u32>>, AllocError>
    ensures { IfOk result (λ lists. length lists.items ≡ count) }
{
    let mut lists = Vec::new(alloc);
    let mut made = 0;
    while made < count {
        lists.push(Items::new(alloc))?;
        made += 1;
    }
    Ok(lists)
}

/// One more that waits. `AllocError`: out of memory.
pub(crate) fn add_to(waiting: &mut [Items<u32>], other: u32, number: u32) -> Result<(), AllocError>
    requires { other < length waiting.old }
    ensures { OnOk result (waiting.new ≡ set waiting.old other (used_by waiting.old other ++ number ∷ [])) }
{
    waiting[other as usize].push(number)
}

/// Takes out the list of those that wait for one.
pub(crate) fn take_list(alloc: Global, waiting: &mut [Items<u32>], number: u32) -> Items<u32>
    requires { number < length waiting.old }
    ensures list { result ≡ used_by waiting.old number }
    ensures left { waiting.new ≡ set waiting.old number [] }
{
    std::mem::replace(&mut waiting[number as usize], Items::new(alloc))
}
