//! Units of bit fields.

ghost use Rattle.std.specs.Prelude.{◌≡◌, ◌+◌, ◌≤◌, ◌++◌, ◌∷◌, [], ℕ, List, length, drop, IfOk, IfErr};
ghost use Rattle.td_write.specs.Imports.{Part};
ghost use Rattle.td_write_values.specs.Datum.{Datum};
ghost use Rattle.td_write_values.specs.Writing.{Written, Later, parts_written, unit_then, in_machine};
ghost use Rattle.td_write_values.specs.declared.limits.TheConstants.{MOST_WRITTEN};
ghost use Rattle.td_write.specs.Writes.{GoesOn, Halts, claims_of};

use crate::bytes::{has_room, push_number};
use crate::halt::Halt;
use crate::numbers::{fits, made_unit, number_of};
use crate::walk::{Draft, Left};
use td_core::module::{Field, Part};
use td_core::outcome::Verdict;
use td_meaning::checking::part_verdict;
use td_num::number::{NumberType, byte_count};
use td_write_values::error::WriteRule;

/// A unit of bit fields, or a number, at its place.
#[derive(Clone, Copy)]
pub struct UnitAt {
    pub number_type: NumberType,
    /// The place of its first byte.
    pub start: u32,
}

/// A bit field of a unit (or a number): its value, which comes into scope, its refinement and its action.
pub fn one_part(
    unit: UnitAt,
    part: &Part,
    left: &Left<'_>,
    env: &mut Vec<u64>,
    places: &[usize],
    path: &mut Vec<usize>,
    cells: &mut [u64],
) -> Result<u64, Halt>
    requires { unit.start ≤ MOST_WRITTEN }
    ensures ok { IfOk result (λ n. (parts : List Part) (go : List ℕ → List ℕ → ℕ → List ℕ → List Datum → Written)
        → parts_written in_machine unit.number_type (part.now ∷ parts) env.old.items places.now path.old.items left.now.index unit.start cells.old (drop left.now.index left.now.values.now) go
        ≡ parts_written in_machine unit.number_type parts env.new.items places.now path.old.items (left.now.index + 1) unit.start cells.new (drop (left.now.index + 1) left.now.values.now) (λ ns. go (n ∷ ns))) }
    ensures scope { IfOk result (λ n. env.new.items ≡ env.old.items ++ n ∷ []) }
    ensures back { IfOk result (λ n. (path.new.items ≡ path.old.items) × (left.now.index + 1 ≤ length left.now.values.now)) }
    ensures err { IfErr result (λ h. (parts : List Part) (go : List ℕ → List ℕ → ℕ → List ℕ → List Datum → Written)
        → Halts h path.new.items (parts_written in_machine unit.number_type (part.now ∷ parts) env.old.items places.now path.old.items left.now.index unit.start cells.old (drop left.now.index left.now.values.now) go)) }
{
    let values = left.values;
    let index = left.index;
    if index >= values.len() {
        return Err(Halt::Broken(WriteRule::Shape));
    }
    let value = &values[index];
    path.push(index)?;
    // By `match`: see `Halt`.
    let number = match number_of(value) {
        Ok(number) => number,
        Err(halt) => return Err(halt),
    };
    let width = byte_count(unit.number_type.width);
    if !fits(unit.number_type, part.bits, number) {
        return Err(Halt::Broken(WriteRule::Range));
    }
    if !has_room(unit.start as usize, width as u64) {
        return Err(Halt::Broken(WriteRule::Long));
    }
    env.push(number)?;
    match part_verdict(part, env, places, cells, unit.start, unit.start + width)? {
        Verdict::Accept { pos: _ } => {
            path.pop();
            Ok(number)
        }
        Verdict::Reject { reason, pos: _ } => Err(Halt::Broken(WriteRule::Broken(reason))),
    }
}

/// A unit of bit fields, or a number.
pub(crate) fn one_unit(
    number_type: NumberType,
    field: &Field,
    left: &Left<'_>,
    env: &mut Vec<u64>,
    places: &[usize],
    cells: &mut [u64],
    draft: &mut Draft,
) -> Result<usize, Halt>
    requires { length draft.old.out.items ≤ MOST_WRITTEN }
    ensures ok { IfOk result (λ next. (later : Later)
        → GoesOn (parts_written in_machine number_type field.now.parts env.old.items places.now draft.old.path.items left.now.index (length draft.old.out.items) cells.old (drop left.now.index left.now.values.now) (unit_then number_type field.now.parts draft.old.path.items (length draft.old.out.items) later))
        (later env.new.items next (length draft.new.out.items) cells.new (drop next left.now.values.now)) draft.old.out.items draft.new.out.items (claims_of draft.old.claims.items) (claims_of draft.new.claims.items)) }
    ensures room { IfOk result (λ next. (length draft.new.out.items ≤ MOST_WRITTEN) × (draft.new.path.items ≡ draft.old.path.items)) }
    ensures err { IfErr result (λ h. (later : Later) → Halts h draft.new.path.items
        (parts_written in_machine number_type field.now.parts env.old.items places.now draft.old.path.items left.now.index (length draft.old.out.items) cells.old (drop left.now.index left.now.values.now) (unit_then number_type field.now.parts draft.old.path.items (length draft.old.out.items) later))) }
{
    let path = &mut draft.path;
    let out = &mut draft.out;
    let start = out.len();
    let unit = UnitAt {
        number_type,
        start: start as u32,
    };
    let first = env.len();
    let parts = field.parts.as_slice();
    let mut next = left.index;
    for part in parts {
        match one_part(
            unit,
            part,
            &Left {
                values: left.values,
                index: next,
            },
            env,
            places,
            path,
            cells,
        ) {
            Ok(_) => {}
            Err(halt) => return Err(halt),
        }
        next += 1;
    }
    let Some(number) = made_unit(number_type, parts, &env.as_slice()[first..]) else {
        return Err(Halt::Broken(WriteRule::Range));
    };
    if !has_room(start, byte_count(number_type.width) as u64) {
        return Err(Halt::Broken(WriteRule::Long));
    }
    push_number(out, number_type, number)?;
    Ok(next)
}
