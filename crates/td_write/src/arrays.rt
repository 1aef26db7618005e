//! Arrays of elements.

ghost use Rattle.std.specs.Prelude.{◌≤◌, length, IfOk, IfErr};
ghost use Rattle.td_write_values.specs.Writing.{element_written, items_written, contents_written, shape_written, in_machine};
ghost use Rattle.td_write_values.specs.declared.limits.TheConstants.{MOST_WRITTEN};
ghost use Rattle.td_write.specs.Writes.{below, Wrote, Halts, claims_of};

use crate::claims::settle;
use crate::elements::{element_bytes, one_element};
use crate::given::write_given;
use crate::halt::Halt;
use crate::leaves::{is_listed, write_bytes, write_zero_ended};
use crate::numbers::is_byte;
use crate::walk::{Draft, Walk};
use td_core::module::{Element, Extent};
use td_core::outcome::Reason;
use td_meaning::arrays::{divides, equals};
use td_meaning::expressions::value_of;
use td_write_values::error::WriteRule;
use td_write_values::value::{Value, ValueKind};

/// An element, or an array of them.
#[cycle(types)]
pub fn shape(
    walk: &Walk<'_, '_>,
    element: &Element,
    extent: &Extent,
    value: &Value,
    env: &[u64],
    cells: &mut [u64],
    draft: &mut Draft,
) -> Result<(), Halt>
    requires { length draft.old.out.items ≤ MOST_WRITTEN }
    ensures ok { IfOk result (λ _. Wrote
        (shape_written in_machine walk.now.m.now.listed (below walk.now.m.now walk.now.bound) element.now extent.now env.now walk.now.places.now draft.old.path.items (length draft.old.out.items) cells.old value.now)
        draft.old.out.items draft.new.out.items draft.old.path.items draft.new.path.items cells.new (claims_of draft.old.claims.items) (claims_of draft.new.claims.items)) }
    ensures err { IfErr result (λ h. Halts h draft.new.path.items
        (shape_written in_machine walk.now.m.now.listed (below walk.now.m.now walk.now.bound) element.now extent.now env.now walk.now.places.now draft.old.path.items (length draft.old.out.items) cells.old value.now)) }
{
    let start = draft.out.len();
    let first = draft.claims.len();
    match extent {
        Extent::Once => one_element(walk, element, value, env, cells, draft),
        Extent::Filling { size, step } => {
            let size = value_of(size, env);
            // By `match`: see `Halt`.
            match contents(walk, element, value, env, cells, draft) {
                Ok(_) => {}
                Err(halt) => return Err(halt),
            }
            let count = draft.out.len() - start;
            if !divides(*step, size) || count as u64 != size {
                return Err(Halt::Broken(WriteRule::Size));
            }
            settle(walk.alloc, first, draft)
        }
        Extent::OnceFilling { size, step } => {
            let size = value_of(size, env);
            match element_bytes(walk, element, value, env, cells, draft) {
                Ok(_) => {}
                Err(halt) => return Err(halt),
            }
            let count = draft.out.len() - start;
            if !equals(*step, size) || count as u64 != size {
                return Err(Halt::Broken(WriteRule::Size));
            }
            match settle(walk.alloc, first, draft) {
                Ok(_) => {}
                Err(halt) => return Err(halt),
            }
            if !is_listed(walk.m.listed.as_slice(), element, value) {
                return Err(Halt::Broken(WriteRule::Broken(Reason::Constraint)));
            }
            Ok(())
        }
        Extent::UpToZero { size } => {
            write_zero_ended(
                element,
                value_of(size, env),
                value,
                &mut draft.path,
                &mut draft.out,
            )
        }
        Extent::Given(source) => write_given(walk.alloc, element, source, value, draft),
    }
}

/// What stands in a byte-sized array.
#[cycle(types)]
fn contents(
    walk: &Walk<'_, '_>,
    element: &Element,
    value: &Value,
    env: &[u64],
    cells: &mut [u64],
    draft: &mut Draft,
) -> Result<(), Halt>
    requires { length draft.old.out.items ≤ MOST_WRITTEN }
    ensures ok { IfOk result (λ _. Wrote
        (contents_written in_machine walk.now.m.now.listed (below walk.now.m.now walk.now.bound) element.now env.now walk.now.places.now draft.old.path.items (length draft.old.out.items) cells.old value.now)
        draft.old.out.items draft.new.out.items draft.old.path.items draft.new.path.items cells.new (claims_of draft.old.claims.items) (claims_of draft.new.claims.items)) }
    ensures err { IfErr result (λ h. Halts h draft.new.path.items
        (contents_written in_machine walk.now.m.now.listed (below walk.now.m.now walk.now.bound) element.now env.now walk.now.places.now draft.old.path.items (length draft.old.out.items) cells.old value.now)) }
{
    if is_byte(element) {
        return write_bytes(value, &mut draft.out);
    }
    match &value.kind {
        ValueKind::List(values) => items(walk, element, values.as_slice(), env, cells, draft),
        ValueKind::Number(_) => Err(Halt::Broken(WriteRule::Shape)),
        ValueKind::Bytes(_) => Err(Halt::Broken(WriteRule::Shape)),
        ValueKind::Empty => Err(Halt::Broken(WriteRule::Shape)),
    }
}

/// Elements one after the other.
#[cycle(types)]
fn items(
    walk: &Walk<'_, '_>,
    element: &Element,
    values: &[Value],
    env: &[u64],
    cells: &mut [u64],
    draft: &mut Draft,
) -> Result<(), Halt>
    requires { length draft.old.out.items ≤ MOST_WRITTEN }
    ensures ok { IfOk result (λ _. Wrote
        (items_written (element_written in_machine walk.now.m.now.listed (below walk.now.m.now walk.now.bound) element.now env.now walk.now.places.now) draft.old.path.items 0 (length draft.old.out.items) cells.old values.now)
        draft.old.out.items draft.new.out.items draft.old.path.items draft.new.path.items cells.new (claims_of draft.old.claims.items) (claims_of draft.new.claims.items)) }
    ensures err { IfErr result (λ h. Halts h draft.new.path.items
        (items_written (element_written in_machine walk.now.m.now.listed (below walk.now.m.now walk.now.bound) element.now env.now walk.now.places.now) draft.old.path.items 0 (length draft.old.out.items) cells.old values.now)) }
{
    for (index, value) in values.iter().enumerate() {
        draft.path.push(index)?;
        let start = draft.out.len();
        match one_element(walk, element, value, env, cells, draft) {
            Ok(_) => {}
            Err(halt) => return Err(halt),
        }
        if draft.out.len() == start {
            return Err(Halt::Broken(WriteRule::Size));
        }
        draft.path.pop();
    }
    Ok(())
}
