//! Whether tables fit together.

ghost use Rattle.std.specs.Prelude.{◌≡◌, ◌<◌, ◌↔◌, length, IsTrue};
ghost use Rattle.td_ir.specs.Tables.{routine_of, begin, lengths_of, site_of, entry_of, set_of, param_of, cell_of, buffer_of};
ghost use Rattle.td_ir.specs.WellFormed.{IsName, IsField, IsSite, IsRoutine, IsEntry, IsCellNamed, AreParams, AreCells, AreBuffers, Rises, AreSites, AreRoutines, AreEntries, AreSets, IsCode};

use crate::tables::{EntryPoint, Parts, Routine, Site};
use td_core::module::{Cell, NameId, Param};

/// A routine has fewer buffers than this: a number of 16 bits names each.
const MOST_BUFFERS: usize = 1 << 16;

fn site_at(parts: &Parts, k: usize) -> Site
    requires { k < length parts.now.sites }
    ensures { result ≡ site_of parts.now k }
{
    parts.sites.as_slice()[k]
}

/// A routine by its number.
pub(crate) fn routine_at(parts: &Parts, k: usize) -> &Routine
    requires { k < length parts.now.routines }
    ensures { result.now ≡ routine_of parts.now k }
{
    &parts.routines.as_slice()[k]
}

/// An entry point by its number.
pub(crate) fn entry_at(parts: &Parts, k: usize) -> &EntryPoint
    requires { k < length parts.now.entries }
    ensures { result.now ≡ entry_of parts.now k }
{
    &parts.entries.as_slice()[k]
}

fn set_at(parts: &Parts, k: usize) -> &[u64]
    requires { k < length parts.now.sets }
    ensures { result.now ≡ set_of parts.now k }
{
    let set = &parts.sets.as_slice()[k];
    set.as_slice()
}

/// A parameter by its place.
pub(crate) fn param_at(params: &[Param], k: usize) -> Param
    requires { k < length params.now }
    ensures { result ≡ param_of params.now k }
{
    params[k]
}

/// A cell by its place.
pub(crate) fn cell_at(cells: &[Cell], k: usize) -> Cell
    requires { k < length cells.now }
    ensures { result ≡ cell_of cells.now k }
{
    cells[k]
}

fn buffer_at(buffers: &[NameId], k: usize) -> NameId
    requires { k < length buffers.now }
    ensures { result ≡ buffer_of buffers.now k }
{
    buffers[k]
}

fn is_name(names: usize, name: NameId) -> bool
    ensures { IsTrue result ↔ IsName names name }
{
    (name.number as usize) < names
}

fn is_field(names: usize, field: Option<NameId>) -> bool
    ensures { IsTrue result ↔ IsField names field }
{
    match field {
        Some(name) => is_name(names, name),
        None => true,
    }
}

fn is_site(names: usize, routines: usize, site: Site) -> bool
    ensures { IsTrue result ↔ IsSite names routines site }
{
    is_name(names, site.ty) && is_name(names, site.field) && (site.routine as usize) < routines
}

fn is_routine(names: usize, routine: &Routine) -> bool
    ensures { IsTrue result ↔ IsRoutine names routine.now }
{
    is_name(names, routine.name)
        && routine.length >= 1
        && routine.params <= routine.registers
        && routine.buffers.len() < MOST_BUFFERS
}

fn is_cell_named(names: usize, cell: Cell) -> bool
    ensures { IsTrue result ↔ IsCellNamed names cell }
{
    is_name(names, cell.name) && is_field(names, cell.field)
}

fn are_params(names: usize, params: &[Param]) -> bool
    ensures { IsTrue result ↔ AreParams names params.now (length params.now) }
{
    for k in 0..params.len() {
        if !is_name(names, param_at(params, k).name) {
            return false;
        }
    }
    true
}

fn are_cells(names: usize, cells: &[Cell]) -> bool
    ensures { IsTrue result ↔ AreCells names cells.now (length cells.now) }
{
    for k in 0..cells.len() {
        if !is_cell_named(names, cell_at(cells, k)) {
            return false;
        }
    }
    true
}

fn are_buffers(names: usize, buffers: &[NameId]) -> bool
    ensures { IsTrue result ↔ AreBuffers names buffers.now (length buffers.now) }
{
    for k in 0..buffers.len() {
        if !is_name(names, buffer_at(buffers, k)) {
            return false;
        }
    }
    true
}

// Whether an entry point has as many parameters, cells and buffers as a routine.
fn has_counts(entry: &EntryPoint, routine: &Routine) -> bool
    ensures { IsTrue result ↔ ((length entry.now.params ≡ routine.now.params) × (length entry.now.cells ≡ routine.now.cells)
        × (length entry.now.buffers ≡ length routine.now.buffers)) }
{
    entry.params.len() == usize::from(routine.params)
        && entry.cells.len() == usize::from(routine.cells)
        && entry.buffers.len() == routine.buffers.len()
}

fn is_entry(parts: &Parts, entry: &EntryPoint) -> bool
    ensures { IsTrue result ↔ IsEntry parts.now entry.now }
{
    if (entry.routine as usize) < parts.routines.len() {
        let names = parts.names.len();
        has_counts(entry, routine_at(parts, entry.routine as usize))
            && are_params(names, entry.params.as_slice())
            && are_cells(names, entry.cells.as_slice())
            && are_buffers(names, entry.buffers.as_slice())
    } else {
        false
    }
}

fn rises(set: &[u64]) -> bool
    ensures { IsTrue result ↔ Rises set.now }
{
    for j in 1..set.len() {
        if set[j - 1] >= set[j] {
            return false;
        }
    }
    true
}

fn are_sites(parts: &Parts) -> bool
    ensures { IsTrue result ↔ AreSites parts.now (length parts.now.sites) }
{
    let names = parts.names.len();
    let routines = parts.routines.len();
    for k in 0..parts.sites.len() {
        if !is_site(names, routines, site_at(parts, k)) {
            return false;
        }
    }
    true
}

fn are_routines(parts: &Parts) -> bool
    ensures { IsTrue result ↔ AreRoutines parts.now (length parts.now.routines) }
{
    let names = parts.names.len();
    for k in 0..parts.routines.len() {
        if !is_routine(names, routine_at(parts, k)) {
            return false;
        }
    }
    true
}

fn are_entries(parts: &Parts) -> bool
    ensures { IsTrue result ↔ AreEntries parts.now (length parts.now.entries) }
{
    for k in 0..parts.entries.len() {
        if !is_entry(parts, entry_at(parts, k)) {
            return false;
        }
    }
    true
}

fn are_sets(parts: &Parts) -> bool
    ensures { IsTrue result ↔ AreSets parts.now (length parts.now.sets) }
{
    for k in 0..parts.sets.len() {
        if !rises(set_at(parts, k)) {
            return false;
        }
    }
    true
}

// Whether the routines' lengths together are the count of instructions.
fn adds_up(parts: &Parts) -> bool
    ensures { IsTrue result ↔ (begin (lengths_of parts.now) (length parts.now.routines) ≡ length parts.now.instructions) }
{
    let mut left = parts.instructions.len();
    for k in 0..parts.routines.len() {
        let length = routine_at(parts, k).length as usize;
        if length > left {
            return false;
        }
        left -= length;
    }
    left == 0
}

/// Whether parts fit together.
pub(crate) fn fit_together(parts: &Parts) -> bool
    ensures { IsTrue result ↔ IsCode parts.now }
{
    are_sites(parts)
        && are_routines(parts)
        && adds_up(parts)
        && are_entries(parts)
        && are_sets(parts)
}
