//! The tests of a type's own.

ghost use Rattle.std.specs.Prelude.{◌≡◌, IfOk, IfErr, true, false};
ghost use Rattle.td_meaning.specs.Words64 as words64;
ghost use Rattle.td_meaning.specs.Meaning.{extended};
ghost use Rattle.td_write.specs.Writes.{Passes, Fails};

use crate::halt::Halt;
use crate::walk::Walk;
use td_core::module::{NameId, Part};
use td_core::outcome::Verdict;
use td_meaning::checking::check_parts;
use td_num::items::Items;
use td_write_values::error::WriteRule;

/// Refuses the value at hand where a test doesn't hold.
pub fn want(holds: bool, rule: WriteRule) -> Result<(), Halt>
    ensures ok { IfOk result (λ _. holds ≡ true) }
    ensures err { IfErr result (λ h. (holds ≡ false) × (h ≡ Halt.Broken rule)) }
{
    if holds {
        Ok(())
    } else {
        Err(Halt::Broken(rule))
    }
}

/// Where a field stands that was written: the places of its first byte, and of the byte after its last.
#[derive(Clone, Copy)]
pub struct FieldBytes {
    pub start: u32,
    pub end: u32,
}

/// The refinement and the action of a field that isn't a unit, each of its parts in scope with the number.
pub(crate) fn test_parts(
    walk: &Walk<'_, '_>,
    ty: NameId,
    parts: &[Part],
    number: u64,
    env: &mut Vec<u64>,
    cells: &mut [u64],
    bytes: FieldBytes,
) -> Result<(), Halt>
    ensures ok { IfOk result (λ _. Passes
        (words64.parts_meaning ty bytes.start number parts.now env.old.items walk.now.places.now bytes.end cells.old).ending cells.new) }
    ensures scope { IfOk result (λ _. env.new.items ≡ extended env.old.items number parts.now) }
    ensures err { IfErr result (λ h. Fails h
        (words64.parts_meaning ty bytes.start number parts.now env.old.items walk.now.places.now bytes.end cells.old).ending) }
{
    let mut trace = Items::new(walk.alloc);
    match check_parts(
        ty,
        parts,
        number,
        env,
        walk.places,
        cells,
        bytes.start,
        bytes.end,
        &mut trace,
    )? {
        Verdict::Accept { pos: _ } => Ok(()),
        Verdict::Reject { reason, pos: _ } => Err(Halt::Broken(WriteRule::Broken(reason))),
    }
}
