//! Elements of fields and arrays.

ghost use Rattle.std.specs.Prelude.{◌≤◌, length, IfOk, IfErr};
ghost use Rattle.td_write_values.specs.Writing.{element_bytes, element_written, in_machine};
ghost use Rattle.td_write_values.specs.declared.limits.TheConstants.{MOST_WRITTEN};
ghost use Rattle.td_write.specs.Writes.{below, Wrote, Halts, claims_of};

use crate::halt::Halt;
use crate::leaves::{is_listed, write_bytes, write_number, write_unit, write_zeros};
use crate::types::named;
use crate::walk::{Draft, Walk};
use td_core::module::Element;
use td_core::outcome::Reason;
use td_meaning::expressions::values_of;
use td_meaning::parameters::cells_of;
use td_write_values::error::WriteRule;
use td_write_values::value::Value;

/// An element.
#[cycle(types)]
pub fn one_element(
    walk: &Walk<'_, '_>,
    element: &Element,
    value: &Value,
    env: &[u64],
    cells: &mut [u64],
    draft: &mut Draft,
) -> Result<(), Halt>
    requires { length draft.old.out.items ≤ MOST_WRITTEN }
    ensures ok { IfOk result (λ _. Wrote
        (element_written in_machine walk.now.m.now.listed (below walk.now.m.now walk.now.bound) element.now env.now walk.now.places.now draft.old.path.items (length draft.old.out.items) cells.old value.now)
        draft.old.out.items draft.new.out.items draft.old.path.items draft.new.path.items cells.new (claims_of draft.old.claims.items) (claims_of draft.new.claims.items)) }
    ensures err { IfErr result (λ h. Halts h draft.new.path.items
        (element_written in_machine walk.now.m.now.listed (below walk.now.m.now walk.now.bound) element.now env.now walk.now.places.now draft.old.path.items (length draft.old.out.items) cells.old value.now)) }
{
    // By `match`: see `Halt`.
    match element_bytes(walk, element, value, env, cells, draft) {
        Ok(_) => {}
        Err(halt) => return Err(halt),
    }
    if !is_listed(walk.m.listed.as_slice(), element, value) {
        return Err(Halt::Broken(WriteRule::Broken(Reason::Constraint)));
    }
    Ok(())
}

/// An element's bytes, whatever its enum says.
#[cycle(types)]
pub(crate) fn element_bytes(
    walk: &Walk<'_, '_>,
    element: &Element,
    value: &Value,
    env: &[u64],
    cells: &mut [u64],
    draft: &mut Draft,
) -> Result<(), Halt>
    requires { length draft.old.out.items ≤ MOST_WRITTEN }
    ensures ok { IfOk result (λ _. Wrote
        (element_bytes in_machine (below walk.now.m.now walk.now.bound) element.now env.now walk.now.places.now draft.old.path.items (length draft.old.out.items) cells.old value.now)
        draft.old.out.items draft.new.out.items draft.old.path.items draft.new.path.items cells.new (claims_of draft.old.claims.items) (claims_of draft.new.claims.items)) }
    ensures err { IfErr result (λ h. Halts h draft.new.path.items
        (element_bytes in_machine (below walk.now.m.now walk.now.bound) element.now env.now walk.now.places.now draft.old.path.items (length draft.old.out.items) cells.old value.now)) }
{
    match element {
        Element::Number(number_type) => write_number(*number_type, value, &mut draft.out),
        Element::Listed { base, values: _ } => write_number(*base, value, &mut draft.out),
        Element::Named {
            definition,
            args,
            cells: own,
        } => {
            let args = values_of(walk.alloc, args.as_slice(), env)?;
            let own = cells_of(walk.alloc, own.as_slice(), walk.places)?;
            let within = Walk {
                alloc: walk.alloc,
                m: walk.m,
                bound: walk.bound,
                places: own.as_slice(),
            };
            named(&within, *definition, value, args.as_slice(), cells, draft)
        }
        Element::Unit => write_unit(value),
        Element::Rest => write_bytes(value, &mut draft.out),
        Element::Zeros => write_zeros(value, &mut draft.out),
    }
}
