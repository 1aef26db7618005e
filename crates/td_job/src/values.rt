//! The arguments and cells of a job.

ghost use Rattle.std.specs.Prelude.{◌≡◌, ◌≢◌, ◌<◌, [], length, replicate, IfOk, IfErr, OnOk, OnErr, slice_get, option_map};
ghost use Rattle.serde_json.specs.Find.{as_array};
ghost use Rattle.serde_json.specs.View.{view, items_view};
ghost use Rattle.td_core.specs.Entries.{entry_definition};
ghost use Rattle.td_core.specs.Formed.{whole, scalar_of, params_at, cells_at};
ghost use Rattle.td_job.specs.Fields.{field_of, IsFirst};
ghost use Rattle.td_job.specs.Fields.{whole as whole_number};
ghost use Rattle.td_job.specs.Values.{value_faults, each_value_faults, list_faults, args_faults, cells_faults, each_number, given_values};
ghost use Rattle.td_job.specs.Slots.{slot_bounds};

use crate::error::{JobError, JobRule, Key, Path};
use crate::json::field_of;
use serde_json::Value;
use std::alloc::{AllocError, Global};
use td_core::entries::entry_definition;
use td_core::module::{Cell, CellKind, Entry, Module, Param, TypeDef};
use td_num::items::Items;
use td_num::number::Width;

/// What the values of a list stand for: parameters or cells.
#[derive(Clone, Copy)]
pub enum Slots<'a> {
    Params(&'a [Param]),
    Cells(&'a [Cell]),
}

/// The greatest number of so many bytes.
fn greatest(width: Width) -> u64
    ensures { result ≡ (whole (scalar_of width)).most }
{
    match width {
        Width::One => 255,
        Width::Two => 65_535,
        Width::Four => 4_294_967_295,
        Width::Eight => 18_446_744_073_709_551_615,
    }
}

impl Slots<'_> {
    /// How many there are.
    pub fn len(self) -> usize
        ensures { result ≡ length (slot_bounds self.entry) }
    {
        match self {
            Slots::Params(params) => params.len(),
            Slots::Cells(cells) => cells.len(),
        }
    }

    /// The greatest value that fits; none past the last of them. A pointer's cell has 32 bits.
    pub(crate) fn most(self, index: usize) -> Option<u64>
        ensures { result ≡ option_map (λ bound. bound.most) (slice_get (slot_bounds self.entry) index) }
    {
        match self {
            Slots::Params(params) => params.get(index).map(|param| greatest(param.width)),
            Slots::Cells(cells) => cells.get(index).map(|cell| match cell.kind {
                CellKind::Number(width) => greatest(width),
                CellKind::Pointer => greatest(Width::Four),
            }),
        }
    }
}

/// The definition of an entry point; none where there is no such entry point, or that has no definition.
pub fn definition_of(m: &Module, entry: Entry) -> Option<&TypeDef>
    ensures { option_map (λ d. d.now) result ≡ entry_definition m.now entry.number }
{
    entry_definition(m, entry)
}

/// The parameters of an entry point with this definition.
pub fn params_of(definition: Option<&TypeDef>) -> Slots<'_>
    ensures { slot_bounds result ≡ params_at (option_map (λ d. d.now) definition.entry) }
{
    match definition {
        None => Slots::Params(&[]),
        Some(definition) => Slots::Params(definition.params.as_slice()),
    }
}

/// The cells of an entry point with this definition.
pub fn cells_of(definition: Option<&TypeDef>) -> Slots<'_>
    ensures { slot_bounds result ≡ cells_at (option_map (λ d. d.now) definition.entry) }
{
    match definition {
        None => Slots::Cells(&[]),
        Some(definition) => Slots::Cells(definition.cells.as_slice()),
    }
}

/// Tests an element of a list. J2: it is no whole number. J4: it is greater than the greatest that fits.
fn check_value(value: &Value, key: Key, index: usize, most: u64) -> Result<(), JobError>
    ensures ok { OnOk result (value_faults (Path.Element key index) most (whole_number (view value.now)) ≡ []) }
    ensures err { IfErr result (λ e. IsFirst (value_faults (Path.Element key index) most (whole_number (view value.now))) e) }
    ensures broken { IfErr result (λ e. e ≢ JobError.NoMemory) }
{
    match value.as_u64() {
        None => Err(JobRule::Form.at_element(key, index)),
        Some(number) => if number > most {
            Err(JobRule::Values.at_element(key, index))
        } else {
            Ok(())
        },
    }
}

/// Tests the elements of a list one by one, as far as there are slots for them.
fn check_values(values: &[Value], key: Key, slots: Slots) -> Result<(), JobError>
    ensures ok { OnOk result (each_value_faults key 0 (slot_bounds slots.entry) (items_view values.now) ≡ []) }
    ensures err { IfErr result (λ e. IsFirst (each_value_faults key 0 (slot_bounds slots.entry) (items_view values.now)) e) }
    ensures broken { IfErr result (λ e. e ≢ JobError.NoMemory) }
{
    for (index, value) in values.iter().enumerate() {
        let Some(most) = slots.most(index) else {
            break;
        };
        check_value(value, key, index, most)?;
    }
    Ok(())
}

/// Tests a list of values. J2: the field is no list, or an element is no whole number. J4: the list has another length than
/// what it stands for, or an element doesn't fit.
fn check_list(value: &Value, key: Key, slots: Slots) -> Result<(), JobError>
    ensures ok { OnOk result (list_faults key (slot_bounds slots.entry) (as_array (view value.now)) ≡ []) }
    ensures err { IfErr result (λ e. IsFirst (list_faults key (slot_bounds slots.entry) (as_array (view value.now))) e) }
    ensures broken { IfErr result (λ e. e ≢ JobError.NoMemory) }
{
    let Some(values) = value.as_array() else {
        return Err(JobRule::Form.at(Path::Whole(key)));
    };
    if values.len() != slots.len() {
        return Err(JobRule::Values.at(Path::Whole(key)));
    }
    check_values(values.as_slice(), key, slots)
}

/// Tests the arguments. J2: `args` is left out though there are parameters, or it is no list, or an element is no whole
/// number. J4: it has another length than the parameters, or an element doesn't fit. Takes no memory.
pub fn check_args(job: &Value, slots: Slots) -> Result<(), JobError>
    ensures ok { OnOk result (args_faults (slot_bounds slots.entry) (field_of Key.Args (view job.now)) ≡ []) }
    ensures err { IfErr result (λ e. IsFirst (args_faults (slot_bounds slots.entry) (field_of Key.Args (view job.now))) e) }
    ensures broken { IfErr result (λ e. e ≢ JobError.NoMemory) }
{
    match field_of(job, Key::Args) {
        Some(value) => check_list(value, Key::Args, slots),
        None => if slots.len() == 0 {
            Ok(())
        } else {
            Err(JobRule::Form.at(Path::Whole(Key::Args)))
        },
    }
}

/// Tests the cells. J2: `cells` is no list, or an element is no whole number. J4: it has another length than the cells, or
/// an element doesn't fit. Takes no memory.
pub(crate) fn check_cells(job: &Value, slots: Slots) -> Result<(), JobError>
    ensures ok { OnOk result (cells_faults (slot_bounds slots.entry) (field_of Key.Cells (view job.now)) ≡ []) }
    ensures err { IfErr result (λ e. IsFirst (cells_faults (slot_bounds slots.entry) (field_of Key.Cells (view job.now))) e) }
    ensures broken { IfErr result (λ e. e ≢ JobError.NoMemory) }
{
    match field_of(job, Key::Cells) {
        Some(value) => check_list(value, Key::Cells, slots),
        None => Ok(()),
    }
}

/// The numbers of a list's elements; what is no whole number counts as 0. `AllocError`: there was no memory for them; never
/// where the list is empty.
fn numbers_of(alloc: Global, values: &[Value]) -> Result<Items<u64>, AllocError>
    ensures ok { IfOk result (λ numbers. numbers ≡ each_number (items_view values.now)) }
    ensures memory { OnErr result (0 < length values.now) }
{
    let mut numbers = Items::new(alloc);
    for value in values {
        numbers.push(value.as_u64().unwrap_or(0))?;
    }
    Ok(numbers)
}

/// So many zeros. `AllocError`: there was no memory for them; never for none.
fn zeros(alloc: Global, count: usize) -> Result<Items<u64>, AllocError>
    ensures ok { IfOk result (λ numbers. numbers ≡ replicate count 0) }
    ensures memory { OnErr result (0 < count) }
{
    if count == 0 {
        return Ok(Items::new(alloc));
    }
    Ok(Items::of(vec![in alloc; 0u64; count]?))
}

/// The values that a job gives for parameters or cells: those of its list, or zeros where that is left out. `AllocError`:
/// there was no memory for them; never where there are none.
pub fn values_of(
    alloc: Global,
    job: &Value,
    key: Key,
    slots: Slots,
) -> Result<Items<u64>, AllocError>
    ensures ok { IfOk result (λ numbers. numbers ≡ given_values (slot_bounds slots.entry) (field_of key (view job.now))) }
    ensures memory { OnErr result (0 < length (given_values (slot_bounds slots.entry) (field_of key (view job.now)))) }
{
    let Some(value) = field_of(job, key) else {
        return zeros(alloc, slots.len());
    };
    match value.as_array() {
        None => Ok(Items::new(alloc)),
        Some(values) => numbers_of(alloc, values.as_slice()),
    }
}
