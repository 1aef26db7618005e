//! What was taken, or reached.

ghost use Rattle.std.specs.Prelude.{◌≡◌};
ghost use Rattle.td_front_order.specs.Order.{used_by};
ghost use Rattle.td_front_order.specs.Flags.{flag_at};

use td_num::items::Items;

pub(crate) fn is_flagged(flags: &[bool], number: u32) -> bool
    ensures { result ≡ flag_at flags.now number }
{
    match flags.get(number as usize) {
        Some(flag) => *flag,
        None => false,
    }
}

/// What one uses.
pub(crate) fn used_by(graph: &[Items<u32>], number: u32) -> &[u32]
    ensures { result.now ≡ used_by graph.now number }
{
    match graph.get(number as usize) {
        Some(used) => used.as_slice(),
        None => &[],
    }
}
