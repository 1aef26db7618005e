//! Entry points of code.

ghost use Rattle.std.specs.Prelude.{◌≡◌, ◌<◌, ◌≤◌, ◌^◌, ◌*◌, ◌↔◌, ℕ, IsTrue, MatchOption, length};
ghost use Rattle.td_num.specs.Numbers.{bytes_in};
ghost use Rattle.td_ir.specs.Entries.{IsEntryNamed, IsFirstNamed, AreArguments, AreValues, Fits, cell_bits};

use crate::code::Code;
use crate::fitting::{cell_at, entry_at, param_at, routine_at};
use crate::tables::Parts;
use td_core::module::{Cell, CellKind, Entry, Param};
use td_num::number::{Width, byte_count};

fn is_entry_named(code: &Code, name: &[u8], number: u32) -> bool
    ensures { IsTrue result ↔ IsEntryNamed code.now name.now number }
{
    let parts = code.parts();
    if (number as usize) >= parts.entries.len() {
        return false;
    }
    let entry = entry_at(parts, number as usize);
    if (entry.routine as usize) >= parts.routines.len() {
        return false;
    }
    let routine = routine_at(parts, entry.routine as usize);
    match parts.names.as_slice().get(routine.name.number as usize) {
        Some(found) => found.is(name),
        None => false,
    }
}

/// The first entry point whose routine has this name. Takes no memory. None: no entry point has it. (Entry points are
/// numbered by a `u32`; a table of more of them than that is looked through as far as the numbers go.)
///
/// The entry point `UDP` of code, or its first one where none has this name:
///
/// ```
/// use td_core::Entry;
/// use td_ir::{Code, entry_in};
///
/// fn udp_or_first(code: &Code) -> Entry {
///     match entry_in(code, b"UDP") {
///         Some(entry) => entry,
///         None => Entry { number: 0 },
///     }
/// }
/// ```
pub fn entry_in(code: &Code, name: &[u8]) -> Option<Entry>
    ensures { MatchOption result ((n : ℕ) → n < 2 ^ 32 → IsEntryNamed code.now name.now n → ⊥)
        (λ entry. IsFirstNamed code.now name.now entry) }
{
    let count = code.parts().entries.len().min(1 << 32);
    for place in 0..count {
        let number = place as u32;
        if is_entry_named(code, name, number) {
            return Some(Entry { number });
        }
    }
    None
}

// Whether a number is below 2^(8 * width).
fn is_within(value: u64, width: Width) -> bool
    ensures { IsTrue result ↔ (value < 2 ^ (8 * bytes_in width)) }
{
    match width {
        Width::One => value < 1 << 8,
        Width::Two => value < 1 << 16,
        Width::Four => value < 1 << 32,
        Width::Eight => true,
    }
}

fn is_cell_value(value: u64, kind: CellKind) -> bool
    ensures { IsTrue result ↔ (value < 2 ^ cell_bits kind) }
{
    match kind {
        CellKind::Number(width) => is_within(value, width),
        CellKind::Pointer => value < 1 << 32,
    }
}

fn are_arguments(params: &[Param], args: &[u64]) -> bool
    requires { length args.now ≡ length params.now }
    ensures { IsTrue result ↔ AreArguments params.now args.now (length args.now) }
{
    for k in 0..args.len() {
        if !is_within(args[k], param_at(params, k).width) {
            return false;
        }
    }
    true
}

fn are_values(cells: &[Cell], values: &[u64]) -> bool
    requires { length values.now ≡ length cells.now }
    ensures { IsTrue result ↔ AreValues cells.now values.now (length values.now) }
{
    for k in 0..values.len() {
        if !is_cell_value(values[k], cell_at(cells, k).kind) {
            return false;
        }
    }
    true
}

fn fit_entry(parts: &Parts, entry: Entry, args: &[u64], cells: &[u64]) -> bool
    ensures { IsTrue result ↔ Fits parts.now entry args.now cells.now }
{
    if (entry.number as usize) >= parts.entries.len() {
        return false;
    }
    let point = entry_at(parts, entry.number as usize);
    if args.len() != point.params.len() {
        return false;
    }
    if cells.len() != point.cells.len() {
        return false;
    }
    are_arguments(point.params.as_slice(), args) && are_values(point.cells.as_slice(), cells)
}

/// Whether arguments and cells fit an entry point: the code has it, they are as many as it has parameters and cells, and
/// each is within its width (a pointer below 2^32). Takes no memory.
///
/// Whether an entry point takes this length and four cells, as that of formats/udp does:
///
/// ```
/// use td_core::Entry;
/// use td_ir::{Code, fits};
///
/// fn is_as_udp(code: &Code, entry: Entry, length: u32) -> bool {
///     fits(code, entry, &[u64::from(length)], &[0, 0, 0, 0])
/// }
/// ```
pub fn fits(code: &Code, entry: Entry, args: &[u64], cells: &[u64]) -> bool
    ensures { IsTrue result ↔ Fits code.now entry args.now cells.now }
{
    fit_entry(code.parts(), entry, args, cells)
}
