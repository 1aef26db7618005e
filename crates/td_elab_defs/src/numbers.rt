//! Values that were given before, and places in lists.

ghost use Rattle.std.specs.Prelude.{◌≡◌, ◌≤◌, ◌-◌, ◌^◌, false, IsSomeAnd, OnOk, OnErr, IfOk};
ghost use Rattle.td_names.specs.Numbers.{is_among};
ghost use Rattle.td_elab_rules.specs.Constants.{is_value_among, with_value_number};

use std::alloc::AllocError;
use td_names::numbers::Numbers;

/// The place of the next element of a list of so many. `AllocError`: all 2^32 - 1 places are given.
pub fn next_place(len: usize) -> Result<u32, AllocError>
    ensures place { IfOk result (λ place. place ≡ len) }
    ensures full { OnErr result (2 ^ 32 - 1 ≤ len) }
{
    if len >= u32::MAX as usize {
        return Err(AllocError);
    }
    Ok(len as u32)
}

/// Whether a value was given before.
pub fn is_value_among(before: &Numbers, value: Option<u64>) -> bool
    ensures { result ≡ is_value_among before.now value }
{
    match value {
        Some(n) => before.contains(n),
        None => false,
    }
}

/// One more value, where there is one. `AllocError`: there is one, it wasn't given before, and out of memory.
pub fn add_value(before: &mut Numbers, value: Option<u64>) -> Result<(), AllocError>
    ensures values { OnOk result (before.new ≡ with_value_number before.old value) }
    ensures unseen { OnErr result (IsSomeAnd value (λ n. is_among before.old n ≡ false)) }
{
    if let Some(n) = value {
        before.add(n)?;
    }
    Ok(())
}
