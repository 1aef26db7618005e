//! Definitions, as they are named from above.

ghost use Rattle.std.specs.Prelude.{◌≡◌, ◌≤◌, length, Err, IfOk, IfErr};
ghost use Rattle.td_write_values.specs.Writing.{listed_written, in_machine};
ghost use Rattle.td_write_values.specs.declared.limits.TheConstants.{MOST_WRITTEN};
ghost use Rattle.td_write.specs.Writes.{below, Wrote, Halts, IsSequence, claims_of};

use crate::bodies::written_fields;
use crate::fields::counted;
use crate::halt::Halt;
use crate::walk::{Draft, Walk};
use td_core::module::TypeDef;
use td_core::outcome::Reason;
use td_write_values::error::WriteRule;
use td_write_values::value::{Value, ValueKind};

/// A definition that is named from above, with its value arguments and, in the walk, the places of its cells.
#[cycle(types)]
pub fn named(
    walk: &Walk<'_, '_>,
    place: u32,
    value: &Value,
    args: &[u64],
    cells: &mut [u64],
    draft: &mut Draft,
) -> Result<(), Halt>
    requires { length draft.old.out.items ≤ MOST_WRITTEN }
    ensures ok { IfOk result (λ _. Wrote
        (below walk.now.m.now walk.now.bound place args.now walk.now.places.now cells.old draft.old.path.items (length draft.old.out.items) value.now)
        draft.old.out.items draft.new.out.items draft.old.path.items draft.new.path.items cells.new (claims_of draft.old.claims.items) (claims_of draft.new.claims.items)) }
    ensures err { IfErr result (λ h. Halts h draft.new.path.items
        (below walk.now.m.now walk.now.bound place args.now walk.now.places.now cells.old draft.old.path.items (length draft.old.out.items) value.now)) }
{
    if place as usize >= walk.bound {
        return Err(Halt::Broken(WriteRule::Broken(Reason::Impossible)));
    }
    match walk.m.definitions.as_slice().get(place as usize) {
        Some(definition) => {
            let below = Walk {
                alloc: walk.alloc,
                m: walk.m,
                bound: place as usize,
                places: walk.places,
            };
            defined(&below, definition, value, args, cells, draft)
        }
        None => Err(Halt::Broken(WriteRule::Broken(Reason::Impossible))),
    }
}

/// A definition: its value is a list. `NoMemory`: it is one, and there was no memory.
#[cycle(types)]
fn defined(
    walk: &Walk<'_, '_>,
    definition: &TypeDef,
    value: &Value,
    args: &[u64],
    cells: &mut [u64],
    draft: &mut Draft,
) -> Result<(), Halt>
    requires { length draft.old.out.items ≤ MOST_WRITTEN }
    ensures ok { IfOk result (λ _. Wrote
        (listed_written in_machine walk.now.m.now.listed (below walk.now.m.now walk.now.bound) definition.now args.now walk.now.places.now cells.old draft.old.path.items (length draft.old.out.items) value.now)
        draft.old.out.items draft.new.out.items draft.old.path.items draft.new.path.items cells.new (claims_of draft.old.claims.items) (claims_of draft.new.claims.items)) }
    ensures err { IfErr result (λ h. Halts h draft.new.path.items
        (listed_written in_machine walk.now.m.now.listed (below walk.now.m.now walk.now.bound) definition.now args.now walk.now.places.now cells.old draft.old.path.items (length draft.old.out.items) value.now)) }
    ensures memory { result ≡ Err Halt.NoMemory → IsSequence value.now }
{
    match &value.kind {
        ValueKind::List(values) => {
            let values = values.as_slice();
            match written_fields(definition, values, args) {
                Ok(fields) => counted(walk, definition.name, fields, values, args, cells, draft),
                Err(halt) => Err(halt),
            }
        }
        ValueKind::Number(_) => Err(Halt::Broken(WriteRule::Shape)),
        ValueKind::Bytes(_) => Err(Halt::Broken(WriteRule::Shape)),
        ValueKind::Empty => Err(Halt::Broken(WriteRule::Shape)),
    }
}
