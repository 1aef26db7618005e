//! What is ready, and what waits for one that isn't taken.

ghost use Rattle.std.specs.Prelude.{◌≡◌, ◌<◌, ◌^◌, ℕ, true, false, [], length, OnOk};
ghost use Rattle.td_front_order.specs.Order.{IsWithin, used_by};
ghost use Rattle.td_front_order.specs.Flags.{flag_at};
ghost use Rattle.td_front_order.specs.Waiting.{AreReady, IsListed, AreListed};

use crate::flags::{is_flagged, used_by};
use crate::searching::untaken;
use crate::waiting::{add_to, take_list};
use std::alloc::{AllocError, Global};
use std::collections::BTreeSet;
use td_num::items::Items;

// Puts one among those that are ready, or those that wait, unless it is taken. `AllocError`: out of memory.
fn enlist(
    graph: &[Items<u32>],
    flags: &[bool],
    waiting: &mut [Items<u32>],
    cursors: &mut [usize],
    ready: &mut BTreeSet<u32>,
    number: u32,
) -> Result<(), AllocError>
    requires within { IsWithin graph.now }
    requires lists { length waiting.old ≡ length graph.now }
    requires sound { AreReady graph.now (flag_at flags.now) ready.old.keys }
    ensures lists { OnOk result (length waiting.new ≡ length graph.now) }
    ensures sound { OnOk result (AreReady graph.now (flag_at flags.now) ready.new.keys) }
    ensures kept { OnOk result ((k : ℕ) → IsListed graph.now (flag_at flags.now) waiting.old ready.old.keys k → IsListed graph.now (flag_at flags.now) waiting.new ready.new.keys k) }
    ensures listed { OnOk result (number < length graph.now → flag_at flags.now number ≡ false → IsListed graph.now (flag_at flags.now) waiting.new ready.new.keys number) }
{
    if number as usize >= graph.len() {
        return Ok(());
    }
    if is_flagged(flags, number) {
        return Ok(());
    }
    match untaken(flags, used_by(graph, number), cursors, number) {
        Some(other) => {
            add_to(waiting, other, number)?;
            Ok(())
        }
        None => {
            ready.insert(number)?;
            Ok(())
        }
    }
}

/// The same for all. `AllocError`: out of memory.
pub(crate) fn enlist_all(
    graph: &[Items<u32>],
    flags: &[bool],
    waiting: &mut [Items<u32>],
    cursors: &mut [usize],
    ready: &mut BTreeSet<u32>,
) -> Result<(), AllocError>
    requires within { IsWithin graph.now }
    requires small { length graph.now < 2 ^ 32 }
    requires lists { length waiting.old ≡ length graph.now }
    requires sound { AreReady graph.now (flag_at flags.now) ready.old.keys }
    ensures lists { OnOk result (length waiting.new ≡ length graph.now) }
    ensures sound { OnOk result (AreReady graph.now (flag_at flags.now) ready.new.keys) }
    ensures listed { OnOk result (AreListed graph.now (flag_at flags.now) waiting.new ready.new.keys []) }
{
    let mut number = 0u32;
    while (number as usize) < graph.len() {
        enlist(graph, flags, waiting, cursors, ready, number)?;
        number += 1;
    }
    Ok(())
}

// Those of a list.
fn enlist_those(
    graph: &[Items<u32>],
    flags: &[bool],
    waiting: &mut [Items<u32>],
    cursors: &mut [usize],
    ready: &mut BTreeSet<u32>,
    numbers: &[u32],
) -> Result<(), AllocError>
    requires within { IsWithin graph.now }
    requires lists { length waiting.old ≡ length graph.now }
    requires sound { AreReady graph.now (flag_at flags.now) ready.old.keys }
    requires listed { AreListed graph.now (flag_at flags.now) waiting.old ready.old.keys numbers.now }
    ensures lists { OnOk result (length waiting.new ≡ length graph.now) }
    ensures sound { OnOk result (AreReady graph.now (flag_at flags.now) ready.new.keys) }
    ensures listed { OnOk result (AreListed graph.now (flag_at flags.now) waiting.new ready.new.keys []) }
{
    for number in numbers {
        enlist(graph, flags, waiting, cursors, ready, *number)?;
    }
    Ok(())
}

/// After one was taken: those that waited for it are ready now, or wait for another. `AllocError`: out of memory.
pub(crate) fn release(
    alloc: Global,
    graph: &[Items<u32>],
    flags: &[bool],
    waiting: &mut [Items<u32>],
    cursors: &mut [usize],
    ready: &mut BTreeSet<u32>,
    number: u32,
) -> Result<(), AllocError>
    requires within { IsWithin graph.now }
    requires number { number < length graph.now }
    requires taken { flag_at flags.now number ≡ true }
    requires lists { length waiting.old ≡ length graph.now }
    requires sound { AreReady graph.now (flag_at flags.now) ready.old.keys }
    requires listed { AreListed graph.now (flag_at flags.now) waiting.old ready.old.keys (used_by waiting.old number) }
    ensures lists { OnOk result (length waiting.new ≡ length graph.now) }
    ensures sound { OnOk result (AreReady graph.now (flag_at flags.now) ready.new.keys) }
    ensures listed { OnOk result (AreListed graph.now (flag_at flags.now) waiting.new ready.new.keys []) }
{
    let numbers = take_list(alloc, waiting, number);
    enlist_those(graph, flags, waiting, cursors, ready, numbers.as_slice())
}
