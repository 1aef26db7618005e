//! The texts by which a host job's module is replaced.

ghost use Rattle.std.specs.Prelude.{◌≡◌, ◌≢◌, ◌<◌, ◌≤◌, ◌-◌, ◌^◌, ◌∷◌, ◌++◌, ◌↔◌, [], ◌⊎◌, IsTrue, Err, None, map, option_map, length, IfOk, IfErr, IfSome, OnOk, OnErr};
ghost use Rattle.serde_json.specs.View.{view, items_view};
ghost use Rattle.td_job_host.specs.Imports.{Entry, FrontError};
ghost use Rattle.td_core.specs.Entries.{entry_definition, name_bytes};
ghost use Rattle.td_front.specs.ModuleText.{IsModuleText, RefusedBy};
ghost use Rattle.td_lexer.specs.Splits.{HasToken};
ghost use Rattle.td_job.specs.Fields.{field_of, text_of, IsFirst};
ghost use Rattle.td_job_host.specs.Swaps.{swaps_faults, given_swaps, named_param, named_cell, named_buffer, params_in, cells_in, params_named, cells_named, buffers_named, Replaces, IsSwap, NoSwap, Spells, AreSwaps, ElementFault, FirstSwapFault, MayLackText, MayLackSwap};

use crate::copies::buffers_in;
use crate::guests::listed;
use serde_json::Value;
use std::alloc::{AllocError, Global};
use td_core::entries::is_same_name;
use td_core::module::{Buffer, Cell, Entry, Module, NameId, Param, TypeDef};
use td_front::{FrontError, check_module};
use td_job::checks::entry_of;
use td_job::error::{JobError, JobRule, Key, Path};
use td_job::json::field_of;
use td_job::values::definition_of;
use td_posts::limits::MOST_SWAPS;

/// Tests the list of swaps. J2: it is no list. J8: it has more than 16 elements. Takes no memory.
pub(crate) fn check_swap_list(job: &Value) -> Result<(), JobError>
    ensures ok { OnOk result (swaps_faults (field_of Key.Swaps (view job.now)) ≡ []) }
    ensures err { IfErr result (IsFirst (swaps_faults (field_of Key.Swaps (view job.now)))) }
    ensures broken { IfErr result (λ e. e ≢ JobError.NoMemory) }
{
    let Some(value) = field_of(job, Key::Swaps) else {
        return Ok(());
    };
    let Some(values) = value.as_array() else {
        return Err(JobRule::Form.at(Path::Whole(Key::Swaps)));
    };
    if values.len() > MOST_SWAPS {
        Err(JobRule::Limit.at(Path::Whole(Key::Swaps)))
    } else {
        Ok(())
    }
}

/// The parameters of an entry point with this definition.
fn params_in(definition: Option<&TypeDef>) -> &[Param]
    ensures { result.now ≡ params_in (option_map (λ d. d.now) definition.entry) }
{
    match definition {
        None => &[],
        Some(definition) => definition.params.as_slice(),
    }
}

/// The cells of an entry point with this definition.
fn cells_in(definition: Option<&TypeDef>) -> &[Cell]
    ensures { result.now ≡ cells_in (option_map (λ d. d.now) definition.entry) }
{
    match definition {
        None => &[],
        Some(definition) => definition.cells.as_slice(),
    }
}

/// Whether both are names of the same bytes, or both are none.
fn is_same_field(m: &Module, one: Option<NameId>, f: &Module, other: Option<NameId>) -> bool
    ensures { IsTrue result ↔ (option_map (name_bytes m.now) one ≡ option_map (name_bytes f.now) other) }
{
    match one {
        None => other.is_none(),
        Some(one) => match other {
            None => false,
            Some(other) => is_same_name(m, one, f, other),
        },
    }
}

fn is_same_param(m: &Module, one: Param, f: &Module, other: Param) -> bool
    ensures { IsTrue result ↔ (named_param m.now one ≡ named_param f.now other) }
{
    one.width == other.width && is_same_name(m, one.name, f, other.name)
}

fn is_same_cell(m: &Module, one: Cell, f: &Module, other: Cell) -> bool
    ensures { IsTrue result ↔ (named_cell m.now one ≡ named_cell f.now other) }
{
    one.kind == other.kind
        && is_same_name(m, one.name, f, other.name)
        && is_same_field(m, one.field, f, other.field)
}

/// Whether these parameters are as many, of the same names and widths, in the same order.
fn are_same_params(m: &Module, ones: &[Param], f: &Module, others: &[Param]) -> bool
    ensures { IsTrue result ↔ (map (named_param m.now) ones.now ≡ map (named_param f.now) others.now) }
{
    if ones.len() != others.len() {
        return false;
    }
    for (index, one) in ones.iter().enumerate() {
        if !is_same_param(m, *one, f, others[index]) {
            return false;
        }
    }
    true
}

/// Whether these cells are as many, of the same names and kinds, in the same order.
fn are_same_cells(m: &Module, ones: &[Cell], f: &Module, others: &[Cell]) -> bool
    ensures { IsTrue result ↔ (map (named_cell m.now) ones.now ≡ map (named_cell f.now) others.now) }
{
    if ones.len() != others.len() {
        return false;
    }
    for (index, one) in ones.iter().enumerate() {
        if !is_same_cell(m, *one, f, others[index]) {
            return false;
        }
    }
    true
}

fn is_same_buffer(m: &Module, one: Buffer, f: &Module, other: Buffer) -> bool
    ensures { IsTrue result ↔ (named_buffer m.now one ≡ named_buffer f.now other) }
{
    one.room == other.room && is_same_name(m, one.name, f, other.name)
}

/// Whether these copy buffers are as many, of the same names and rooms, in the same order.
fn are_same_buffers(m: &Module, ones: &[Buffer], f: &Module, others: &[Buffer]) -> bool
    ensures { IsTrue result ↔ (map (named_buffer m.now) ones.now ≡ map (named_buffer f.now) others.now) }
{
    if ones.len() != others.len() {
        return false;
    }
    for (index, one) in ones.iter().enumerate() {
        if !is_same_buffer(m, *one, f, others[index]) {
            return false;
        }
    }
    true
}

/// Whether two entry points have the same parameters.
fn takes_same(m: &Module, entry: Entry, f: &Module, other: Entry) -> bool
    ensures { IsTrue result ↔ (params_named f.now (entry_definition f.now other.number) ≡ params_named m.now (entry_definition m.now entry.number)) }
{
    let ones = params_in(definition_of(f, other));
    let others = params_in(definition_of(m, entry));
    are_same_params(f, ones, m, others)
}

/// Whether two entry points have the same cells.
fn fills_same(m: &Module, entry: Entry, f: &Module, other: Entry) -> bool
    ensures { IsTrue result ↔ (cells_named f.now (entry_definition f.now other.number) ≡ cells_named m.now (entry_definition m.now entry.number)) }
{
    let ones = cells_in(definition_of(f, other));
    let others = cells_in(definition_of(m, entry));
    are_same_cells(f, ones, m, others)
}

/// Whether two entry points have the same copy buffers.
fn copies_same(m: &Module, entry: Entry, f: &Module, other: Entry) -> bool
    ensures { IsTrue result ↔ (buffers_named f.now (entry_definition f.now other.number) ≡ buffers_named m.now (entry_definition m.now entry.number)) }
{
    let ones = buffers_in(definition_of(f, other));
    let others = buffers_in(definition_of(m, entry));
    are_same_buffers(f, ones, m, others)
}

/// The entry point with which a module may replace that of a job. Takes no memory. None: it has none of that name, or that takes,
/// fills or copies to others.
fn replacing(job: &Value, m: &Module, entry: Entry, f: &Module) -> Option<Entry>
    ensures some { IfSome result (λ g. Replaces m.now entry (text_of Key.Entry (view job.now)) f.now g) }
    ensures none { result ≡ None → (g : Entry) → Replaces m.now entry (text_of Key.Entry (view job.now)) f.now g → ⊥ }
{
    match entry_of(job, f) {
        Err(_) => None,
        Ok(found) => if takes_same(m, entry, f, found)
            && fills_same(m, entry, f, found)
            && copies_same(m, entry, f, found)
        {
            Some(found)
        } else {
            None
        },
    }
}

/// A module by which a job's is replaced, and its entry point.
#[derive(Drop)]
struct Version {
    format: Module,
    entry: Entry,
}

/// The cause of an error of a module's text, at an element: out of memory exactly where it was that, else J9. Takes no memory.
fn fault_of(error: FrontError, index: usize) -> JobError
    ensures memory { error ≡ FrontError.NoMemory → result ≡ JobError.NoMemory }
    ensures refused { error ≢ FrontError.NoMemory → result ≡ JobError.Fault JobRule.Swap (Path.Element Key.Swaps index) }
{
    match error {
        FrontError::NoMemory => JobError::NoMemory,
        _ => JobRule::Swap.at_element(Key::Swaps, index),
    }
}

/// The module for which a text stands. J9: it stands for none. `NoMemory`: there was no memory for it, which a text without a token
/// needs none of; a text of 2^32 - 1 bytes or more has none.
fn module_of(alloc: Global, text: &str, index: usize) -> Result<Module, JobError>
    ensures ok { IfOk result (λ f. IsModuleText text.now f) }
    ensures err { IfErr result (λ e. (e ≡ JobError.NoMemory) ⊎ ((e ≡ JobError.Fault JobRule.Swap (Path.Element Key.Swaps index)) × ((x : FrontError) × RefusedBy text.now x))) }
    ensures memory { result ≡ Err JobError.NoMemory → HasToken text.now ⊎ (2 ^ 32 - 1 ≤ length text.now) }
{
    if text.len() >= u32::MAX as usize {
        return Err(JobError::NoMemory);
    }
    match check_module(alloc, text.as_bytes()) {
        Ok(format) => Ok(format),
        Err(error) => Err(fault_of(error, index)),
    }
}

/// The version that a text is, in place of the module of a job. J9: it may not replace it. `NoMemory`: there was no memory for it.
fn version_of(
    alloc: Global,
    job: &Value,
    m: &Module,
    entry: Entry,
    text: &str,
    index: usize,
) -> Result<Version, JobError>
    ensures ok { IfOk result (λ v. IsSwap m.now entry (text_of Key.Entry (view job.now)) text.now v.format v.entry) }
    ensures err { IfErr result (λ e. (e ≡ JobError.NoMemory) ⊎ ((e ≡ JobError.Fault JobRule.Swap (Path.Element Key.Swaps index)) × NoSwap m.now entry (text_of Key.Entry (view job.now)) text.now)) }
    ensures memory { result ≡ Err JobError.NoMemory → HasToken text.now ⊎ (2 ^ 32 - 1 ≤ length text.now) }
{
    let format = module_of(alloc, text, index)?;
    match replacing(job, m, entry, &format) {
        Some(entry) => Ok(Version { format, entry }),
        None => Err(JobRule::Swap.at_element(Key::Swaps, index)),
    }
}

/// The version that an element is. J2: it is no text. J9: it may not replace the module. `NoMemory`: there was no memory for it.
fn element_of(
    alloc: Global,
    job: &Value,
    m: &Module,
    entry: Entry,
    value: &Value,
    index: usize,
) -> Result<Version, JobError>
    ensures ok { IfOk result (λ v. Spells m.now entry (text_of Key.Entry (view job.now)) (view value.now) v.format v.entry) }
    ensures err { IfErr result (λ e. (e ≡ JobError.NoMemory) ⊎ ElementFault m.now entry (text_of Key.Entry (view job.now)) index (view value.now) e) }
    ensures memory { result ≡ Err JobError.NoMemory → MayLackText m.now entry (text_of Key.Entry (view job.now)) (view value.now) }
{
    match value.as_str() {
        None => Err(JobRule::Form.at_element(Key::Swaps, index)),
        Some(text) => version_of(alloc, job, m, entry, text, index),
    }
}

/// Modules and their entry points.
#[derive(Drop)]
pub(crate) struct Versions {
    pub formats: Vec<Module>,
    pub entries: Vec<Entry>,
}

impl Versions {
    fn none(alloc: Global) -> Versions
        ensures formats { result.formats.items ≡ [] }
        ensures entries { result.entries.items ≡ [] }
    {
        Versions {
            formats: Vec::new(alloc),
            entries: Vec::new(alloc),
        }
    }

    /// Puts a version behind the others.
    fn push(&mut self, version: Version) -> Result<(), AllocError>
        ensures formats { OnOk result (self.new.formats.items ≡ self.old.formats.items ++ version.format ∷ []) }
        ensures entries { OnOk result (self.new.entries.items ≡ self.old.entries.items ++ version.entry ∷ []) }
    {
        self.formats.push(version.format)?;
        self.entries.push(version.entry)?;
        Ok(())
    }
}

/// The versions that elements are. J2, J9: the first fault of these. `NoMemory`: there was no memory for one of them.
fn versions_of(
    alloc: Global,
    job: &Value,
    m: &Module,
    entry: Entry,
    values: &[Value],
) -> Result<Versions, JobError>
    ensures ok { IfOk result (λ v. AreSwaps m.now entry (text_of Key.Entry (view job.now)) (items_view values.now) v.formats.items v.entries.items) }
    ensures err { IfErr result (λ e. (e ≡ JobError.NoMemory) ⊎ FirstSwapFault m.now entry (text_of Key.Entry (view job.now)) 0 (items_view values.now) e) }
    ensures memory { result ≡ Err JobError.NoMemory → MayLackSwap m.now entry (text_of Key.Entry (view job.now)) (items_view values.now) }
{
    let mut versions = Versions::none(alloc);
    for (index, value) in values.iter().enumerate() {
        let version = element_of(alloc, job, m, entry, value, index)?;
        versions.push(version)?;
    }
    Ok(versions)
}

/// The versions that a job's swaps are, in order. J2, J9: the first fault of these. `NoMemory`: there was no memory for one of them.
pub(crate) fn swaps_of(
    alloc: Global,
    job: &Value,
    m: &Module,
    entry: Entry,
) -> Result<Versions, JobError>
    ensures ok { IfOk result (λ v. AreSwaps m.now entry (text_of Key.Entry (view job.now)) (given_swaps (view job.now)) v.formats.items v.entries.items) }
    ensures err { IfErr result (λ e. (e ≡ JobError.NoMemory) ⊎ FirstSwapFault m.now entry (text_of Key.Entry (view job.now)) 0 (given_swaps (view job.now)) e) }
    ensures memory { result ≡ Err JobError.NoMemory → MayLackSwap m.now entry (text_of Key.Entry (view job.now)) (given_swaps (view job.now)) }
{
    match listed(job, Key::Swaps) {
        None => Ok(Versions::none(alloc)),
        Some(values) => versions_of(alloc, job, m, entry, values),
    }
}
