//! The writer's call.

ghost use Rattle.std.specs.Prelude.{IfOk, IfErr, OnErr, ◌≡◌, ◌≢◌};
ghost use Rattle.td_core.specs.Entries.{entry_definition};
ghost use Rattle.td_core.specs.Formed.{AllFit, params_at, cells_at};
ghost use Rattle.td_write_values.specs.Writing.{Written, Refused};
ghost use Rattle.td_write.specs.Writes.{Halts};
ghost use Rattle.td_write.specs.Answers.{IsWritable, IsAppended, IsRefusal, IsCause, IsNowhere, Unless};

use crate::claims::settle;
use crate::copies::accepted_with;
use crate::halt::Halt;
use crate::types::named;
use crate::walk::{Draft, Walk};
use std::alloc::Global;
use td_core::module::{Entry, Module};
use td_core::outcome::{Outcome, Reason};
use td_meaning::parameters::places_below;
use td_meaning_plain::meaning::opened;
use td_num::items::Items;
use td_write_fits::laws::writing_is_in_range;
use td_write_spells::laws::{kinds_are_admitted, writing_is_exact};
use td_write_values::error::{WriteError, WriteRule};
use td_write_values::value::Value;

/// The error of a broken rule at a path. Takes no memory.
fn broken(rule: WriteRule, path: Vec<usize>) -> WriteError
    ensures rule { IsRefusal (Refused rule path.items) result }
    ensures broken { result ≢ WriteError.NoMemory }
{
    let path = Items::of(path);
    match rule {
        WriteRule::Shape => WriteError::Shape { path },
        WriteRule::Range => WriteError::Range { path },
        WriteRule::Broken(reason) => WriteError::Broken { path, reason },
        WriteRule::Size => WriteError::Size { path },
        WriteRule::Long => WriteError::Long,
    }
}

/// The error of what stopped the writer at a path: `NoMemory` exactly where it was that. Takes no memory.
fn stopped(halt: Halt, path: Vec<usize>) -> WriteError
    ensures cause { (w : Written) → Halts halt path.items w → IsRefusal w result }
    ensures memory { result ≡ WriteError.NoMemory → halt ≡ Halt.NoMemory }
{
    match halt {
        Halt::Broken(rule) => broken(rule, path),
        Halt::NoMemory => WriteError::NoMemory,
    }
}

/// Appends the bytes of a value by an entry point's type to `out`, and answers how the module accepts them. Each error but
/// `NoMemory` is the value's first fault, in the order of the fields; such a value has no bytes that the module accepts to
/// their end. `NoMemory`: out of memory. After an error `out` is as before.
pub fn write_value(
    alloc: Global,
    m: &Module,
    entry: Entry,
    args: &[u64],
    cells: &[u64],
    value: &Value,
    out: &mut Vec<u8>,
) -> Result<Outcome, WriteError>
    requires writable { IsWritable m.now }
    requires args { AllFit (params_at (entry_definition m.now entry.number)) args.now }
    requires cells { AllFit (cells_at (entry_definition m.now entry.number)) cells.now }
    ensures ok { IfOk result (λ o. IsAppended m.now entry args.now cells.now value.now out.old.items out.new.items o) }
    ensures cause { IfErr result (λ e. IsCause m.now entry args.now cells.now value.now e) }
    ensures none { IfErr result (λ e. Unless e (IsNowhere m.now entry args.now cells.now value.now)) }
    ensures kept { OnErr result (out.new.items ≡ out.old.items) }
{
    writing_is_exact();
    kinds_are_admitted();
    writing_is_in_range();
    let mut left = opened(alloc, m, entry, cells)?;
    let path = Vec::new(alloc);
    let written = Vec::new(alloc);
    let claims = Vec::new(alloc);
    let mut draft = Draft {
        path,
        out: written,
        claims,
    };
    let places = places_below(alloc, left.len())?;
    let Some(place) = m.entries.as_slice().get(entry.number as usize) else {
        return Err(broken(WriteRule::Broken(Reason::Impossible), draft.path));
    };
    let walk = Walk {
        alloc,
        m,
        bound: m.definitions.len(),
        places: places.as_slice(),
    };
    match named(&walk, *place, value, args, left.as_mut_slice(), &mut draft) {
        Ok(()) => {}
        Err(halt) => return Err(stopped(halt, draft.path)),
    }
    match settle(alloc, 0, &mut draft) {
        Ok(()) => {
            let answer = accepted_with(alloc, draft.out.as_slice(), left, cells.len())?;
            out.extend_from_slice(draft.out.as_slice())?;
            Ok(answer)
        }
        Err(halt) => Err(stopped(halt, draft.path)),
    }
}
