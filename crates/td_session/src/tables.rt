//! What a session's code says of its entry points: names, parameters and cells.

ghost use Rattle.std.specs.Prelude.{◌≡◌, ◌<◌, ◌↔◌, Some, IfSome, IsSome, length, slice_get};
ghost use Rattle.std.specs.Arc.{arc_value};
ghost use Rattle.td_ir.specs.Tables.{entry_of, routine_of};

use crate::session::Session;
use td_core::full_name::FullName;
use td_core::module::{Cell, Entry, NameId, Param};
use td_vm_step::tables::{entry_at, routine_at};

impl Session {
    /// The name of this number. Takes no memory. None: the code has no such name.
    pub fn name(&self, id: NameId) -> Option<&FullName>
        ensures there { IsSome result ↔ (id.number < length (arc_value self.now.code).names) }
        ensures name { IfSome result (λ name. slice_get (arc_value self.now.code).names id.number ≡ Some name.now) }
    {
        self.parts().names.as_slice().get(id.number as usize)
    }

    /// How many entry points the code has.
    pub fn entry_count(&self) -> usize
        ensures { result ≡ length (arc_value self.now.code).entries }
    {
        self.parts().entries.len()
    }

    /// The name of an entry point: that of its routine. None: the code has no such entry point.
    pub fn entry_name(&self, entry: Entry) -> Option<NameId>
        ensures there { IsSome result ↔ (entry.number < length (arc_value self.now.code).entries) }
        ensures name { IfSome result (λ id. id ≡ (routine_of (arc_value self.now.code) (entry_of (arc_value self.now.code) entry.number).routine).name) }
    {
        let parts = self.parts();
        if (entry.number as usize) >= parts.entries.len() {
            return None;
        }
        let point = entry_at(parts, entry.number as usize);
        Some(routine_at(parts, point.routine as usize).name)
    }

    /// The parameters of an entry point, with their names and widths. None: the code has no such entry point.
    pub fn params(&self, entry: Entry) -> Option<&[Param]>
        ensures there { IsSome result ↔ (entry.number < length (arc_value self.now.code).entries) }
        ensures params { IfSome result (λ list. list.now ≡ (entry_of (arc_value self.now.code) entry.number).params) }
    {
        let parts = self.parts();
        if (entry.number as usize) >= parts.entries.len() {
            return None;
        }
        let point = entry_at(parts, entry.number as usize);
        Some(point.params.as_slice())
    }

    /// The names of an entry point's copy buffers. None: the code has no such entry point.
    pub fn buffers(&self, entry: Entry) -> Option<&[NameId]>
        ensures there { IsSome result ↔ (entry.number < length (arc_value self.now.code).entries) }
        ensures buffers { IfSome result (λ list. list.now ≡ (entry_of (arc_value self.now.code) entry.number).buffers) }
    {
        let parts = self.parts();
        if (entry.number as usize) >= parts.entries.len() {
            return None;
        }
        let point = entry_at(parts, entry.number as usize);
        Some(point.buffers.as_slice())
    }

    /// The rooms of an entry point's copy buffers, in bytes: as many as there are names. None: the code has no such entry point.
    pub fn rooms(&self, entry: Entry) -> Option<&[u32]>
        ensures there { IsSome result ↔ (entry.number < length (arc_value self.now.code).entries) }
        ensures count { IfSome result (λ list. length list.now ≡ length (entry_of (arc_value self.now.code) entry.number).buffers) }
        ensures rooms { IfSome result (λ list. list.now ≡ (routine_of (arc_value self.now.code) (entry_of (arc_value self.now.code) entry.number).routine).buffers) }
    {
        let parts = self.parts();
        if (entry.number as usize) >= parts.entries.len() {
            return None;
        }
        let point = entry_at(parts, entry.number as usize);
        Some(routine_at(parts, point.routine as usize).buffers.as_slice())
    }

    /// The cells of an entry point, with their names and kinds. None: the code has no such entry point.
    pub fn cells(&self, entry: Entry) -> Option<&[Cell]>
        ensures there { IsSome result ↔ (entry.number < length (arc_value self.now.code).entries) }
        ensures cells { IfSome result (λ list. list.now ≡ (entry_of (arc_value self.now.code) entry.number).cells) }
    {
        let parts = self.parts();
        if (entry.number as usize) >= parts.entries.len() {
            return None;
        }
        let point = entry_at(parts, entry.number as usize);
        Some(point.cells.as_slice())
    }
}
