//! Buffers for the copies of an entry point.

ghost use Rattle.std.specs.Prelude.{◌≡◌, IfOk, map};
ghost use Rattle.td_core.specs.Entries.{entry_definition};
ghost use Rattle.td_direct.specs.Copies.{empty_for, empty_of};

use crate::direct::entry_place;
use std::alloc::{AllocError, Global};
use td_core::module::{Buffer as Parameter, Entry, Module};
use td_stream::copies::{Buffer, Copies};

// An empty buffer for each of these, with its room.
fn buffers_with(alloc: Global, parameters: &[Parameter]) -> Result<Copies, AllocError>
    ensures { IfOk result (λ copies. copies.buffers.items ≡ map empty_for parameters.now) }
{
    let mut buffers = Vec::new(alloc);
    for parameter in parameters {
        buffers.push(Buffer::with_room(alloc, parameter.room)?)?;
    }
    Ok(Copies { buffers })
}

/// An empty buffer for each copy parameter of an entry point, in order, with just its room; none where the module has no such entry
/// point. `AllocError`: there was no memory for them.
pub fn buffers_of(alloc: Global, m: &Module, entry: Entry) -> Result<Copies, AllocError>
    ensures { IfOk result (λ copies. copies.buffers.items ≡ empty_of (entry_definition m.now entry.number)) }
{
    let definition = match entry_place(m, entry) {
        Some(place) => m.definitions.as_slice().get(place as usize),
        None => None,
    };
    match definition {
        Some(d) => buffers_with(alloc, d.buffers.as_slice()),
        None => Ok(Copies {
            buffers: Vec::new(alloc),
        }),
    }
}
