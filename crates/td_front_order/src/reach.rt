//! What is reached by uses.

ghost use Rattle.std.specs.Prelude.{◌≡◌, ◌<◌, ℕ, true, [], ◌∷◌, IfOk, OnOk, length};
ghost use Rattle.td_num.specs.Lists.{is_among};
ghost use Rattle.td_front_order.specs.Order.{IsWithin, Reaches};
ghost use Rattle.td_front_order.specs.Flags.{AreFlags, AreBelow, add_new};

use crate::flags::{is_flagged, used_by};
use std::alloc::{AllocError, Global};
use td_num::items::Items;

// Adds one, unless it is there.
#[tactic(auto, using(crate::proofs::Reached::flags_more))]
fn add_one(flags: &mut [bool], reached: &mut Items<u32>, number: u32) -> Result<(), AllocError>
    requires flags { AreFlags flags.old reached.old }
    requires below { number < length flags.old }
    ensures flags { OnOk result (AreFlags flags.new reached.new) }
    ensures length { length flags.new ≡ length flags.old }
    ensures reached { OnOk result (reached.new ≡ add_new reached.old (number ∷ [])) }
{
    if !is_flagged(flags, number) {
        reached.push(number)?;
        flags[number as usize] = true;
    }
    Ok(())
}

// Adds those that aren't there.
fn add_all(flags: &mut [bool], reached: &mut Items<u32>, used: &[u32]) -> Result<(), AllocError>
    requires flags { AreFlags flags.old reached.old }
    requires below { AreBelow (length flags.old) used.now }
    ensures flags { OnOk result (AreFlags flags.new reached.new) }
    ensures length { length flags.new ≡ length flags.old }
    ensures reached { OnOk result (reached.new ≡ add_new reached.old used.now) }
{
    for number in used {
        add_one(flags, reached, *number)?;
    }
    Ok(())
}

/// What one reaches, itself among them. `AllocError`: out of memory.
pub fn reached_from(
    alloc: Global,
    graph: &[Items<u32>],
    from: u32,
) -> Result<Items<u32>, AllocError>
    requires within { IsWithin graph.now }
    requires from { from < length graph.now }
    ensures sound { IfOk result (λ reached. (j : ℕ) → is_among reached j ≡ true → Reaches graph.now from j) }
    ensures whole { IfOk result (λ reached. (j : ℕ) → Reaches graph.now from j → is_among reached j ≡ true) }
{
    let mut room = vec![in alloc; false; graph.len()]?;
    let flags = room.as_mut_slice();
    let mut reached = Items::new(alloc);
    add_one(flags, &mut reached, from)?;
    let mut cursor = 0;
    while cursor < reached.len() {
        let number = reached.as_slice()[cursor];
        add_all(flags, &mut reached, used_by(graph, number))?;
        cursor += 1;
    }
    Ok(reached)
}
