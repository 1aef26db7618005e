//! Names of parameters and members that are told apart.

ghost use Rattle.std.specs.Prelude.{◌≡◌, ◌++◌, ◌≤◌, ◌<◌, IfOk, OnOk, [], ◌∷◌, flat_map, length, map as map_list, take};
ghost use Rattle.td_core.specs.declared.module.Cell.{Cell};
ghost use Rattle.td_core.specs.declared.module.Param.{Param};
ghost use Rattle.td_ir.specs.WellFormed.{AreBuffers, AreCells, AreParams, IsCellNamed, IsEntry};
ghost use Rattle.td_prog_text.specs.Entries as texts;
ghost use Rattle.td_prog_text.specs.Names as names;

use crate::calls::push_name_of;
use crate::identifiers::{escaped, is_equal};
use crate::places::{buffer_at, cell_at, param_at};
use std::alloc::{AllocError, Global};
use td_core::module::{Cell, NameId};
use td_ir::tables::{EntryPoint, Parts};
use td_num::items::Items;

fn is_among(taken: &[Items<u8>], name: &[u8]) -> bool
    ensures { result ≡ names.is_one_of taken.now name.now }
{
    taken.iter().any(|one| is_equal(one.as_slice(), name))
}

// With as many `_` behind it as make it another one than those that are taken.
fn fresh(taken: &[Items<u8>], name: Vec<u8>) -> Result<Vec<u8>, AllocError>
    ensures { IfOk result (λ made. made.items ≡ names.fresh (length taken.now) taken.now name.items) }
{
    let mut made = name;
    for k in 0..taken.len() {
        let among = is_among(taken, &made);
        if !among {
            return Ok(made);
        }
        made.push(95)?;
    }
    Ok(made)
}

fn own(alloc: Global, parts: &Parts, name: NameId) -> Result<Vec<u8>, AllocError>
    requires { name.number < length parts.now.names }
    ensures { IfOk result (λ made. made.items ≡ texts.own parts.now name) }
{
    let mut bare = Vec::new(alloc);
    push_name_of(&mut bare, parts, name)?;
    escaped(alloc, &bare)
}

// One name more.
fn add(
    alloc: Global,
    out: &mut Vec<Items<u8>>,
    parts: &Parts,
    name: NameId,
) -> Result<(), AllocError>
    requires { name.number < length parts.now.names }
    ensures { OnOk result (out.new.items ≡ names.distinct out.old.items (texts.own parts.now name ∷ [])) }
{
    let given = own(alloc, parts, name)?;
    let made = fresh(out, given)?;
    out.push(Items::of(made))?;
    Ok(())
}

fn add_params(
    alloc: Global,
    out: &mut Vec<Items<u8>>,
    parts: &Parts,
    entry: &EntryPoint,
) -> Result<(), AllocError>
    requires { AreParams (length parts.now.names) entry.now.params (length entry.now.params) }
    ensures { OnOk result (out.new.items ≡ names.distinct out.old.items (map_list (λ (p : Param). texts.own parts.now p.name) entry.now.params)) }
{
    for k in 0..entry.params.len() {
        add(alloc, out, parts, param_at(entry, k).name)?;
    }
    Ok(())
}

fn add_cells(
    alloc: Global,
    out: &mut Vec<Items<u8>>,
    parts: &Parts,
    entry: &EntryPoint,
) -> Result<(), AllocError>
    requires { AreCells (length parts.now.names) entry.now.cells (length entry.now.cells) }
    ensures { OnOk result (out.new.items ≡ names.distinct out.old.items (map_list (λ (cell : Cell). texts.own parts.now cell.name) entry.now.cells)) }
{
    for k in 0..entry.cells.len() {
        add(alloc, out, parts, cell_at(entry, k).name)?;
    }
    Ok(())
}

fn add_buffers(
    alloc: Global,
    out: &mut Vec<Items<u8>>,
    parts: &Parts,
    entry: &EntryPoint,
) -> Result<(), AllocError>
    requires { AreBuffers (length parts.now.names) entry.now.buffers (length entry.now.buffers) }
    ensures { OnOk result (out.new.items ≡ names.distinct out.old.items (map_list (texts.own parts.now) entry.now.buffers)) }
{
    for k in 0..entry.buffers.len() {
        add(alloc, out, parts, buffer_at(entry, k))?;
    }
    Ok(())
}

/// The names of an entry point's value parameters, of its cells and of its buffers.
pub fn all_names(
    alloc: Global,
    parts: &Parts,
    entry: &EntryPoint,
) -> Result<Vec<Items<u8>>, AllocError>
    requires { IsEntry parts.now entry.now }
    ensures { IfOk result (λ made. made.items ≡ texts.all_names parts.now entry.now) }
{
    let mut out = Vec::new(alloc);
    add_params(alloc, &mut out, parts, entry)?;
    add_cells(alloc, &mut out, parts, entry)?;
    add_buffers(alloc, &mut out, parts, entry)?;
    Ok(out)
}

// One member more, if the cell is of this record.
fn add_member(
    alloc: Global,
    out: &mut Vec<Items<u8>>,
    parts: &Parts,
    name: NameId,
    cell: Cell,
) -> Result<(), AllocError>
    requires { IsCellNamed (length parts.now.names) cell }
    ensures { OnOk result (out.new.items ≡ names.distinct out.old.items (texts.field_in parts.now name cell)) }
{
    if cell.name.number == name.number {
        match cell.field {
            Some(field) => add(alloc, out, parts, field),
            None => Ok(()),
        }
    } else {
        Ok(())
    }
}

// Of the first so many cells.
fn members_in(
    alloc: Global,
    parts: &Parts,
    entry: &EntryPoint,
    count: usize,
    name: NameId,
) -> Result<Vec<Items<u8>>, AllocError>
    requires named { AreCells (length parts.now.names) entry.now.cells (length entry.now.cells) }
    requires count { count ≤ length entry.now.cells }
    ensures { IfOk result (λ made. made.items ≡ texts.members_in parts.now name (take count entry.now.cells)) }
{
    let mut out = Vec::new(alloc);
    for k in 0..count {
        add_member(alloc, &mut out, parts, name, cell_at(entry, k))?;
    }
    Ok(out)
}

fn member_of(
    alloc: Global,
    parts: &Parts,
    entry: &EntryPoint,
    k: usize,
    cell: Cell,
) -> Result<Vec<u8>, AllocError>
    requires named { AreCells (length parts.now.names) entry.now.cells (length entry.now.cells) }
    requires there { k < length entry.now.cells }
    requires cell { IsCellNamed (length parts.now.names) cell }
    ensures { IfOk result (λ made. made.items ≡ texts.member_of parts.now entry.now.cells k cell) }
{
    match cell.field {
        Some(field) => {
            let taken = members_in(alloc, parts, entry, k, cell.name)?;
            let given = own(alloc, parts, field)?;
            fresh(&taken, given)
        }
        None => Ok(Vec::new(alloc)),
    }
}

/// The name of each cell as a member of its record.
pub fn all_members(
    alloc: Global,
    parts: &Parts,
    entry: &EntryPoint,
) -> Result<Vec<Items<u8>>, AllocError>
    requires { AreCells (length parts.now.names) entry.now.cells (length entry.now.cells) }
    ensures { IfOk result (λ made. made.items ≡ texts.all_members parts.now entry.now.cells) }
{
    let mut out = Vec::new(alloc);
    for k in 0..entry.cells.len() {
        let made = member_of(alloc, parts, entry, k, cell_at(entry, k))?;
        out.push(Items::of(made))?;
    }
    Ok(out)
}
