//! Arguments of types.

ghost use Rattle.std.specs.Prelude.{◌≡◌, ◌<◌, ◌≤◌, ◌+◌, ◌^◌, ◌++◌, length, not, IfOk, OnErr, OnOk, slice_get};
ghost use Rattle.td_elab_rules.specs.Breach.{first_of, when};
ghost use Rattle.td_elab_rules.specs.declared.breach.Rule.TheVariants.{WrongArgs};
ghost use Rattle.td_num.specs.Numbers.{places_from};
ghost use Rattle.td_elab_rules.specs.declared.known.Meaning.TheVariants as meaning;
ghost use Rattle.td_elab_rules.specs.declared.known.Found.TheVariants.{Global as GlobalFound};
ghost use Rattle.td_elab_rules.specs.Types.{same_cell, cells_found, cells_named, are_applied, args_breaches, args_core, cells_or_none, args_cells, fits_params, same_kind, is_kind, fits_cells, fits, applied, found_breaches, found_element};
ghost use Rattle.td_elab_types.specs.Runs.{run_cells, is_taken, term_of, arg_breaches, cells_of};
ghost use Rattle.td_elab_types.specs.Memory.{IsValue};

use crate::buffers::{add_buffers, add_pairs, buffer_named, fits_buffers};
use crate::signatures::parameter_at;
use crate::types::same_number;
use std::alloc::{AllocError, Global};
use td_ast::expressions::{Expr, ExprKind};
use td_ast::token::Span;
use td_core::expressions::CoreExpr;
use td_core::module::{Cell, CellKind, Element, Param, TypeDef};
use td_elab_actions::scopes::scalar_of;
use td_elab_exprs::expressions::fitting;
use td_elab_exprs::findings::Findings;
use td_elab_exprs::look_up::{look_up, signature_at, slots_at};
use td_elab_rules::breach::Rule;
use td_elab_rules::known::{CellType, Found, Known, Local, Parameter, Scope};
use td_expr::types::{bits_of, type_of};
use td_num::items::Items;
use td_num::number::byte_count;

/// Cells one after the other: the place of the first, and how many they are.
#[derive(Clone, Copy, PartialEq, Eq)]
pub struct CellRun {
    pub first: u32,
    pub count: usize,
}

/// Whether both are cells of one type.
fn same_cell(a: CellType, b: CellType) -> bool
    ensures { result ≡ same_cell a b }
{
    match a {
        CellType::Number(one) => match b {
            CellType::Number(other) => same_number(one, other),
            CellType::Pointer | CellType::Record(_) => false,
        },
        CellType::Pointer => match b {
            CellType::Pointer => true,
            CellType::Number(_) | CellType::Record(_) => false,
        },
        CellType::Record(one) => match b {
            CellType::Record(other) => one == other,
            CellType::Number(_) | CellType::Pointer => false,
        },
    }
}

/// The cells of a `mutable` parameter of a type, where that was found.
fn cells_found(known: &Known, wanted: CellType, found: Found) -> Option<CellRun>
    ensures { run_cells result ≡ cells_found known.now wanted found }
{
    match found {
        Found::Local(Local::Cell(first, own)) => {
            if same_cell(wanted, own) {
                Some(CellRun { first, count: 1 })
            } else {
                None
            }
        }
        Found::Local(Local::Row(first, record)) => {
            if same_cell(wanted, CellType::Record(record)) {
                let count = slots_at(known, record).len();
                Some(CellRun { first, count })
            } else {
                None
            }
        }
        _ => None,
    }
}

/// The cells that an argument names, where it is the plain name of a `mutable` parameter of a type.
fn cells_named(known: &Known, scope: &Scope, wanted: CellType, e: &Expr) -> Option<CellRun>
    ensures { run_cells result ≡ cells_named known.now scope.now wanted e.now }
{
    match &e.kind {
        ExprKind::Name(n) => cells_found(known, wanted, look_up(known, scope, n.text.as_slice())),
        _ => None,
    }
}

/// Whether there are as many arguments as parameters, with cells and copy buffers where they are taken.
fn are_applied(known: &Known, scope: &Scope, parameters: &[Parameter], args: &[Expr]) -> bool
    ensures { result ≡ are_applied known.now scope.now parameters.now args.now }
{
    if parameters.len() != args.len() {
        return false;
    }
    for (i, parameter) in parameters.iter().enumerate() {
        if !is_taken(known, scope, *parameter, &args[i]) {
            return false;
        }
    }
    true
}

/// Whether an argument may stand for a parameter, its sort and width aside.
fn is_taken(known: &Known, scope: &Scope, parameter: Parameter, arg: &Expr) -> bool
    ensures { result ≡ is_taken known.now scope.now parameter arg.now }
{
    match parameter {
        Parameter::Value(_) => true,
        Parameter::Cells(wanted) => cells_named(known, scope, wanted, arg).is_some(),
        Parameter::Buffer(room) => buffer_named(known, scope, room, arg).is_some(),
    }
}

/// Notes another number of arguments, or an argument for cells or for a copy buffer that isn't one.
pub(crate) fn check_applied(
    known: &Known,
    scope: &Scope,
    at: Span,
    parameters: &[Parameter],
    args: &[Expr],
    findings: &mut Findings,
)
    ensures { findings.new.first ≡ first_of findings.old.first (when (not (are_applied known.now scope.now parameters.now args.now)) WrongArgs at) }
{
    let is_applied = are_applied(known, scope, parameters, args);
    findings.note_if(!is_applied, Rule::WrongArgs, at);
}

/// An argument for a value, added to those before; its breaches are noted. `AllocError`: the parameter is a value, and
/// out of memory.
fn add_term(
    alloc: Global,
    known: &Known,
    scope: &Scope,
    parameter: Parameter,
    arg: &Expr,
    terms: &mut Items<CoreExpr>,
    findings: &mut Findings,
) -> Result<(), AllocError>
    ensures memory { OnErr result (IsValue parameter) }
    ensures core { OnOk result (terms.new ≡ terms.old ++ term_of known.now scope.now parameter arg.now) }
    ensures first { OnOk result (findings.new.first ≡ first_of findings.old.first (arg_breaches known.now scope.now parameter arg.now)) }
{
    if let Parameter::Value(scalar) = parameter {
        let typing = fitting(alloc, known, scope, scalar, arg, findings)?;
        terms.push(typing.core)?;
    }
    Ok(())
}

/// The arguments for values, added to those before; their breaches are noted. `AllocError`: there is an argument, and
/// out of memory.
#[tactic(auto, using(td_elab_exprs::proofs::Steps::first_append))]
fn add_terms(
    alloc: Global,
    known: &Known,
    scope: &Scope,
    parameters: &[Parameter],
    args: &[Expr],
    terms: &mut Items<CoreExpr>,
    findings: &mut Findings,
) -> Result<(), AllocError>
    ensures memory { OnErr result (0 < length args.now) }
    ensures core { OnOk result (terms.new ≡ terms.old ++ args_core known.now scope.now parameters.now args.now) }
    ensures first { OnOk result (findings.new.first ≡ first_of findings.old.first (args_breaches known.now scope.now parameters.now args.now)) }
{
    for (i, arg) in args.iter().enumerate() {
        match parameter_at(parameters, i) {
            Some(parameter) => add_term(alloc, known, scope, parameter, arg, terms, findings)?,
            None => return Ok(()),
        }
    }
    Ok(())
}

/// The place so far after a first one. `AllocError`: it is 2^32 or more.
fn place_after(first: u32, offset: usize) -> Result<u32, AllocError>
    ensures place { IfOk result (λ place. place ≡ first + offset) }
    ensures full { OnErr result (2 ^ 32 ≤ first + offset) }
{
    match u32::try_from(offset) {
        Ok(offset) => first.checked_add(offset).ok_or(AllocError),
        Err(_) => Err(AllocError),
    }
}

/// Places one after the other, after those before. `AllocError`: out of memory.
fn add_places(cells: &mut Items<u32>, first: u32, count: usize) -> Result<(), AllocError>
    ensures { OnOk result (cells.new ≡ cells.old ++ places_from first count) }
{
    for offset in 0..count {
        cells.push(place_after(first, offset)?)?;
    }
    Ok(())
}

/// The cells of a run, after those before. `AllocError`: out of memory.
fn add_run(cells: &mut Items<u32>, run: Option<CellRun>) -> Result<(), AllocError>
    ensures { OnOk result (cells.new ≡ cells.old ++ cells_or_none (run_cells run)) }
{
    match run {
        Some(CellRun { first, count }) => add_places(cells, first, count),
        None => Ok(()),
    }
}

/// The cells that an argument names, where its parameter takes some.
fn cells_of(known: &Known, scope: &Scope, parameter: Parameter, arg: &Expr) -> Option<CellRun>
    ensures { cells_or_none (run_cells result) ≡ cells_of known.now scope.now parameter arg.now }
{
    match parameter {
        Parameter::Value(_) | Parameter::Buffer(_) => None,
        Parameter::Cells(wanted) => cells_named(known, scope, wanted, arg),
    }
}

/// The cells that are handed on, after those before. `AllocError`: there is an argument, and out of memory.
fn add_cells(
    known: &Known,
    scope: &Scope,
    parameters: &[Parameter],
    args: &[Expr],
    cells: &mut Items<u32>,
) -> Result<(), AllocError>
    ensures memory { OnErr result (0 < length args.now) }
    ensures cells { OnOk result (cells.new ≡ cells.old ++ args_cells known.now scope.now parameters.now args.now) }
{
    for (i, arg) in args.iter().enumerate() {
        match parameter_at(parameters, i) {
            Some(parameter) => add_run(cells, cells_of(known, scope, parameter, arg))?,
            None => return Ok(()),
        }
    }
    Ok(())
}

/// Whether arguments are as many as the parameters, each no wider.
fn fits_params(params: &[Param], terms: &[CoreExpr]) -> bool
    ensures { result ≡ fits_params params.now terms.now }
{
    if params.len() != terms.len() {
        return false;
    }
    for (i, param) in params.iter().enumerate() {
        if bits_of(type_of(&terms[i])) > bits_of(scalar_of(param.width)) {
            return false;
        }
    }
    true
}

/// Whether both cells hold the same.
fn same_kind(a: CellKind, b: CellKind) -> bool
    ensures { result ≡ same_kind a b }
{
    match a {
        CellKind::Number(one) => match b {
            CellKind::Number(other) => byte_count(one) == byte_count(other),
            CellKind::Pointer => false,
        },
        CellKind::Pointer => match b {
            CellKind::Number(_) => false,
            CellKind::Pointer => true,
        },
    }
}

/// Whether the cell at a place holds the same.
fn is_kind(own: &[CellKind], place: u32, kind: CellKind) -> bool
    ensures { result ≡ is_kind (slice_get own.now place) kind }
{
    match own.get(place as usize) {
        Some(found) => same_kind(*found, kind),
        None => false,
    }
}

/// Whether the cells are as many as a type has, each holding the same.
fn fits_cells(own: &[CellKind], cells: &[Cell], places: &[u32]) -> bool
    ensures { result ≡ fits_cells own.now cells.now places.now }
{
    if cells.len() != places.len() {
        return false;
    }
    for (i, cell) in cells.iter().enumerate() {
        if !is_kind(own, places[i], cell.kind) {
            return false;
        }
    }
    true
}

/// Whether a struct or casetype takes these arguments, cells and copy buffers.
fn fits(
    scope: &Scope,
    definition: &TypeDef,
    args: &[CoreExpr],
    cells: &[u32],
    buffers: &[u32],
) -> bool
    ensures { result ≡ fits scope.now definition.now args.now cells.now buffers.now }
{
    fits_params(definition.params.as_slice(), args)
        && (fits_cells(scope.cells.as_slice(), definition.cells.as_slice(), cells)
            && fits_buffers(
                scope.buffers.as_slice(),
                definition.buffers.as_slice(),
                buffers,
            ))
}

/// The struct or casetype at a place applied to arguments, cells and copy buffers; where they don't fit, what takes no
/// bytes. `AllocError`: there is a copy buffer, and out of memory.
fn applied(
    known: &Known,
    scope: &Scope,
    place: u32,
    args: Items<CoreExpr>,
    cells: Items<u32>,
    buffers: &[u32],
) -> Result<Element, AllocError>
    ensures memory { OnErr result (0 < length buffers.now) }
    ensures core { IfOk result (λ e. e ≡ applied scope.now place (slice_get known.now.definitions place) args cells buffers.now) }
{
    let Some(d) = known.definitions.as_slice().get(place as usize) else {
        return Ok(Element::Unit);
    };
    if !fits(scope, d, args.as_slice(), cells.as_slice(), buffers) {
        return Ok(Element::Unit);
    }
    let mut cells = cells;
    add_pairs(&mut cells, scope.cells.len(), buffers)?;
    Ok(Element::Named {
        definition: place,
        args,
        cells,
    })
}

/// The struct or casetype at a place with its arguments; their breaches are noted. `AllocError`: there is an argument,
/// and out of memory.
#[tactic(auto, using(td_elab_exprs::proofs::Steps::first_append, crate::proofs::Sides::some_argument))]
pub(crate) fn apply(
    alloc: Global,
    known: &Known,
    scope: &Scope,
    place: u32,
    at: Span,
    args: &[Expr],
    findings: &mut Findings,
) -> Result<Element, AllocError>
    ensures memory { OnErr result (0 < length args.now) }
    ensures core { IfOk result (λ e. e ≡ found_element known.now scope.now (GlobalFound (meaning.Type place)) args.now) }
    ensures first { OnOk result (findings.new.first ≡ first_of findings.old.first (found_breaches known.now scope.now (GlobalFound (meaning.Type place)) at args.now)) }
{
    let parameters = signature_at(known, place);
    check_applied(known, scope, at, parameters, args, findings);
    let mut terms = Items::new(alloc);
    add_terms(alloc, known, scope, parameters, args, &mut terms, findings)?;
    let mut cells = Items::new(alloc);
    add_cells(known, scope, parameters, args, &mut cells)?;
    let mut buffers = Items::new(alloc);
    add_buffers(known, scope, parameters, args, &mut buffers)?;
    let element = applied(known, scope, place, terms, cells, buffers.as_slice())?;
    Ok(element)
}
