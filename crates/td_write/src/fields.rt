//! Fields, and what stands in them.

ghost use Rattle.std.specs.Prelude.{◌≡◌, ◌≤◌, length, drop, IfOk, IfErr};
ghost use Rattle.td_write_values.specs.Bytes.{unit_type};
ghost use Rattle.td_write_values.specs.Writing.{Later, shape_written, copied, field_written, fields_written, in_machine};
ghost use Rattle.td_write_values.specs.declared.limits.TheConstants.{MOST_WRITTEN};
ghost use Rattle.td_write.specs.Writes.{below, Wrote, GoesOn, Halts, claims_of};

use crate::arrays::shape;
use crate::copies::note_copy;
use crate::halt::Halt;
use crate::numbers::{number_in, unit_type};
use crate::parts::{FieldBytes, test_parts};
use crate::units::one_unit;
use crate::walk::{Draft, Left, Walk};
use td_core::module::{Field, NameId};
use td_write_values::error::WriteRule;
use td_write_values::value::Value;

/// Fields one after the other.
#[cycle(types)]
pub fn counted(
    walk: &Walk<'_, '_>,
    ty: NameId,
    fields: &[Field],
    values: &[Value],
    args: &[u64],
    cells: &mut [u64],
    draft: &mut Draft,
) -> Result<(), Halt>
    requires { length draft.old.out.items ≤ MOST_WRITTEN }
    ensures ok { IfOk result (λ _. Wrote
        (fields_written in_machine walk.now.m.now.listed (below walk.now.m.now walk.now.bound) ty fields.now args.now walk.now.places.now draft.old.path.items 0 (length draft.old.out.items) cells.old values.now)
        draft.old.out.items draft.new.out.items draft.old.path.items draft.new.path.items cells.new (claims_of draft.old.claims.items) (claims_of draft.new.claims.items)) }
    ensures err { IfErr result (λ h. Halts h draft.new.path.items
        (fields_written in_machine walk.now.m.now.listed (below walk.now.m.now walk.now.bound) ty fields.now args.now walk.now.places.now draft.old.path.items 0 (length draft.old.out.items) cells.old values.now)) }
{
    let mut env = Vec::from_slice(walk.alloc, args)?;
    let mut index = 0;
    for field in fields {
        // By `match`: see `Halt`.
        match one_field(
            walk,
            ty,
            field,
            &Left { values, index },
            &mut env,
            cells,
            draft,
        ) {
            Ok(next) => index = next,
            Err(halt) => return Err(halt),
        }
    }
    if index < values.len() {
        return Err(Halt::Broken(WriteRule::Shape));
    }
    Ok(())
}

/// A field: gives the number of the value after its own.
#[cycle(types)]
fn one_field(
    walk: &Walk<'_, '_>,
    ty: NameId,
    field: &Field,
    left: &Left<'_>,
    env: &mut Vec<u64>,
    cells: &mut [u64],
    draft: &mut Draft,
) -> Result<usize, Halt>
    requires { length draft.old.out.items ≤ MOST_WRITTEN }
    // what is left of the struct decides the whole of it
    ensures ok { IfOk result (λ next. (later : Later)
        → GoesOn (field_written in_machine walk.now.m.now.listed (below walk.now.m.now walk.now.bound) ty (unit_type field.now.element field.now.extent) field.now env.old.items walk.now.places.now draft.old.path.items left.now.index (length draft.old.out.items) cells.old (drop left.now.index left.now.values.now) later)
        (later env.new.items next (length draft.new.out.items) cells.new (drop next left.now.values.now)) draft.old.out.items draft.new.out.items (claims_of draft.old.claims.items) (claims_of draft.new.claims.items)) }
    ensures room { IfOk result (λ next. (length draft.new.out.items ≤ MOST_WRITTEN) × (draft.new.path.items ≡ draft.old.path.items)) }
    ensures err { IfErr result (λ h. (later : Later) → Halts h draft.new.path.items
        (field_written in_machine walk.now.m.now.listed (below walk.now.m.now walk.now.bound) ty (unit_type field.now.element field.now.extent) field.now env.old.items walk.now.places.now draft.old.path.items left.now.index (length draft.old.out.items) cells.old (drop left.now.index left.now.values.now) later)) }
{
    match unit_type(&field.element, &field.extent) {
        Some(number_type) => one_unit(number_type, field, left, env, walk.places, cells, draft),
        None => {
            let values = left.values;
            let index = left.index;
            if index >= values.len() {
                return Err(Halt::Broken(WriteRule::Shape));
            }
            let value = &values[index];
            let start = draft.out.len() as u32;
            let number = number_in(
                &field.element,
                &field.extent,
                env.as_slice(),
                walk.places,
                cells,
                value,
            );
            draft.path.push(index)?;
            match content(walk, field, value, env.as_slice(), cells, draft) {
                Ok(_) => {}
                Err(halt) => return Err(halt),
            }
            let end = draft.out.len() as u32;
            match test_parts(
                walk,
                ty,
                field.parts.as_slice(),
                number,
                env,
                cells,
                FieldBytes { start, end },
            ) {
                Ok(_) => {}
                Err(halt) => return Err(halt),
            }
            draft.path.pop();
            Ok(index + 1)
        }
    }
}

/// What stands in a field that isn't a unit; where it is copied, its place and its number of bytes are noted.
#[cycle(types)]
fn content(
    walk: &Walk<'_, '_>,
    field: &Field,
    value: &Value,
    env: &[u64],
    cells: &mut [u64],
    draft: &mut Draft,
) -> Result<(), Halt>
    requires { length draft.old.out.items ≤ MOST_WRITTEN }
    ensures ok { IfOk result (λ _. Wrote
        (copied field.now.copy walk.now.places.now (length draft.old.out.items) (shape_written in_machine walk.now.m.now.listed (below walk.now.m.now walk.now.bound) field.now.element field.now.extent env.now walk.now.places.now draft.old.path.items (length draft.old.out.items) cells.old value.now))
        draft.old.out.items draft.new.out.items draft.old.path.items draft.new.path.items cells.new (claims_of draft.old.claims.items) (claims_of draft.new.claims.items)) }
    ensures err { IfErr result (λ h. Halts h draft.new.path.items
        (copied field.now.copy walk.now.places.now (length draft.old.out.items) (shape_written in_machine walk.now.m.now.listed (below walk.now.m.now walk.now.bound) field.now.element field.now.extent env.now walk.now.places.now draft.old.path.items (length draft.old.out.items) cells.old value.now))) }
{
    let start = draft.out.len();
    match shape(
        walk,
        &field.element,
        &field.extent,
        value,
        env,
        cells,
        draft,
    ) {
        Ok(_) => {}
        Err(halt) => return Err(halt),
    }
    let count = draft.out.len() - start;
    note_copy(&field.copy, walk.places, start, count, cells);
    Ok(())
}
