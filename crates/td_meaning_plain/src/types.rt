//! Definitions and their fields.

ghost use Rattle.std.specs.Prelude.{◌≡◌, ℕ, suc, ◌∷◌, ◌-◌, List, [], IfOk, Some};
ghost use Rattle.td_core.specs.declared.module.Field.{Field};
ghost use Rattle.td_core.specs.Outcome.{Ending, plain, and_then};
ghost use Rattle.td_meaning.specs.Words64.{below, definition_meaning, fields_meaning, content_meaning, shape_meaning, element_meaning, field_number};
ghost use Rattle.td_meaning.specs.Meaning.{elements, filled, filled_once};
ghost use Rattle.td_meaning.specs.Verdicts.{ending_of};

use crate::arrays::{unfit, up_to_zero};
use crate::copies::copied;
use crate::enums::listed_number;
use crate::numbers::{field_number, pass, place_after};
use crate::slate::Slate;
use crate::zeros::zeros;
use std::alloc::{AllocError, Global};
use td_core::module::{Element, Extent, Field, Module, NameId, TypeDef};
use td_core::outcome::{Reason, Spot, Verdict};
use td_meaning::arrays::{divides, equals};
use td_meaning::casetypes::body_fields;
use td_meaning::checking::{check_parts, demand, framed};
use td_meaning::enums::values_at;
use td_meaning::expressions::{is_met, value_of, values_of};
use td_meaning::needed::first_name;
use td_meaning::parameters::cells_of;
use td_num::number::byte_count;

/// What a walk goes by: a message, up to which of its bytes the walk may go, the definitions of a module below a bound, and for
/// each cell of the walk's own definition its place among all cells.
#[derive(Clone, Copy)]
pub struct Walk<'m, 'p, 'b> {
    pub alloc: Global,
    pub m: &'m Module,
    pub bound: usize,
    pub places: &'p [usize],
    pub message: &'b [u8],
    pub end: u32,
}

// The same walk, up to an earlier end.
fn up_to<'m, 'p, 'b>(walk: &Walk<'m, 'p, 'b>, end: u32) -> Walk<'m, 'p, 'b>
    ensures { result ≡ record walk.now { end = end } }
{
    Walk {
        alloc: walk.alloc,
        m: walk.m,
        bound: walk.bound,
        places: walk.places,
        message: walk.message,
        end,
    }
}

/// A definition that is named from above, with its value arguments and, in the walk, the places of its cells.
#[cycle(types)]
pub fn named(
    walk: &Walk<'_, '_, '_>,
    place: u32,
    args: &[u64],
    pos: u32,
    slate: &mut Slate,
) -> Result<Verdict, AllocError>
    requires empty_trace { slate.old.trace ≡ [] }
    ensures ending { IfOk result (λ v. (below walk.now.m.now.listed walk.now.m.now.definitions walk.now.bound place args.now walk.now.places.now slate.old.cells.items walk.now.message.now pos walk.now.end).ending
        ≡ ending_of v slate.new.trace slate.new.cells.items) }
    ensures empty_trace { IfOk result (λ v. (q : ℕ) → v ≡ Verdict.Accept q → slate.new.trace ≡ []) }
{
    if place as usize >= walk.bound {
        return Ok(Verdict::Reject {
            reason: Reason::Impossible,
            pos,
        });
    }
    match walk.m.definitions.as_slice().get(place as usize) {
        Some(definition) => {
            let below = Walk {
                alloc: walk.alloc,
                m: walk.m,
                bound: place as usize,
                places: walk.places,
                message: walk.message,
                end: walk.end,
            };
            Ok(defined(&below, definition, args, pos, slate)?)
        }
        None => Ok(Verdict::Reject {
            reason: Reason::Impossible,
            pos,
        }),
    }
}

// A definition: its `where`, and then its fields.
#[cycle(types)]
fn defined(
    walk: &Walk<'_, '_, '_>,
    definition: &TypeDef,
    args: &[u64],
    pos: u32,
    slate: &mut Slate,
) -> Result<Verdict, AllocError>
    requires empty_trace { slate.old.trace ≡ [] }
    ensures ending { IfOk result (λ v. (definition_meaning walk.now.m.now.listed (below walk.now.m.now.listed walk.now.m.now.definitions walk.now.bound) (Some definition.now) args.now walk.now.places.now slate.old.cells.items walk.now.message.now pos walk.now.end).ending
        ≡ ending_of v slate.new.trace slate.new.cells.items) }
    ensures empty_trace { IfOk result (λ v. (q : ℕ) → v ≡ Verdict.Accept q → slate.new.trace ≡ []) }
{
    let guard = demand(
        is_met(&definition.guard, args),
        Reason::Constraint,
        pos,
        pos,
    );
    match framed(guard, definition.name, Spot::Where, pos, &mut slate.trace)? {
        Verdict::Accept { pos: _ } => {}
        Verdict::Reject { reason, pos } => return Ok(Verdict::Reject { reason, pos }),
    }
    match body_fields(&definition.body, args) {
        None => {
            let none = Verdict::Reject {
                reason: Reason::Impossible,
                pos,
            };
            Ok(framed(none, definition.name, Spot::Switch, pos, &mut slate.trace)?)
        }
        Some(fields) => {
            let mut env = Vec::from_slice(walk.alloc, args)?;
            Ok(fields_in_order(
                walk,
                definition.name,
                fields.as_slice(),
                &mut env,
                pos,
                slate,
            )?)
        }
    }
}

// Fields one after the other.
#[cycle(types)]
fn fields_in_order(
    walk: &Walk<'_, '_, '_>,
    ty: NameId,
    fields: &[Field],
    env: &mut Vec<u64>,
    start: u32,
    slate: &mut Slate,
) -> Result<Verdict, AllocError>
    requires empty_trace { slate.old.trace ≡ [] }
    ensures ending { IfOk result (λ v. (fields_meaning walk.now.m.now.listed (below walk.now.m.now.listed walk.now.m.now.definitions walk.now.bound) ty fields.now env.old.items walk.now.places.now walk.now.message.now walk.now.end start slate.old.cells.items).ending
        ≡ ending_of v slate.new.trace slate.new.cells.items) }
    ensures empty_trace { IfOk result (λ v. (q : ℕ) → v ≡ Verdict.Accept q → slate.new.trace ≡ []) }
{
    let mut position = start;
    for field in fields {
        match one_field(walk, ty, field, env, position, slate)? {
            Verdict::Accept { pos } => position = pos,
            Verdict::Reject { reason, pos } => return Ok(Verdict::Reject { reason, pos }),
        }
    }
    Ok(Verdict::Accept { pos: position })
}

// The number in a field, for the values in scope, and what the cells hold there; 0 where it is none.
fn number_in(walk: &Walk<'_, '_, '_>, field: &Field, env: &[u64], start: u32, cells: &[u64]) -> u64
    ensures { result ≡ field_number field.now.element field.now.extent env.now walk.now.places.now walk.now.message.now walk.now.end start cells.now }
{
    field_number(
        &field.element,
        &field.extent,
        env,
        walk.places,
        walk.message,
        walk.end,
        start,
        cells,
    )
}

// A field, and then its parts.
#[cycle(types)]
fn one_field(
    walk: &Walk<'_, '_, '_>,
    ty: NameId,
    field: &Field,
    env: &mut Vec<u64>,
    start: u32,
    slate: &mut Slate,
) -> Result<Verdict, AllocError>
    requires empty_trace { slate.old.trace ≡ [] }
    // what is left of the struct decides the whole of it
    ensures ending { IfOk result (λ v. (later : List Field)
        → (fields_meaning walk.now.m.now.listed (below walk.now.m.now.listed walk.now.m.now.definitions walk.now.bound) ty (field.now ∷ later) env.old.items walk.now.places.now walk.now.message.now walk.now.end start slate.old.cells.items).ending
        ≡ (and_then (plain (ending_of v slate.new.trace slate.new.cells.items)) (fields_meaning walk.now.m.now.listed (below walk.now.m.now.listed walk.now.m.now.definitions walk.now.bound) ty later env.new.items walk.now.places.now walk.now.message.now walk.now.end)).ending) }
    ensures empty_trace { IfOk result (λ v. (q : ℕ) → v ≡ Verdict.Accept q → slate.new.trace ≡ []) }
{
    let parts = field.parts.as_slice();
    let value = number_in(walk, field, env.as_slice(), start, slate.cells.as_slice());
    let verdict = content(walk, field, env.as_slice(), start, slate)?;
    match framed(
        verdict,
        ty,
        Spot::Field(first_name(parts)),
        start,
        &mut slate.trace,
    )? {
        Verdict::Accept { pos } => {
            Ok(check_parts(
                ty,
                parts,
                value,
                env,
                walk.places,
                slate.cells.as_mut_slice(),
                start,
                pos,
                &mut slate.trace,
            )?)
        }
        Verdict::Reject { reason, pos } => Ok(Verdict::Reject { reason, pos }),
    }
}

// What stands in a field, and where it goes.
#[cycle(types)]
fn content(
    walk: &Walk<'_, '_, '_>,
    field: &Field,
    env: &[u64],
    start: u32,
    slate: &mut Slate,
) -> Result<Verdict, AllocError>
    requires empty_trace { slate.old.trace ≡ [] }
    ensures ending { IfOk result (λ v. (content_meaning walk.now.m.now.listed (below walk.now.m.now.listed walk.now.m.now.definitions walk.now.bound) field.now.element field.now.extent field.now.copy env.now walk.now.places.now walk.now.message.now walk.now.end start slate.old.cells.items).ending
        ≡ ending_of v slate.new.trace slate.new.cells.items) }
    ensures empty_trace { IfOk result (λ v. (q : ℕ) → v ≡ Verdict.Accept q → slate.new.trace ≡ []) }
{
    if let Some(copy) = field.copy {
        if let Extent::Filling { size, .. } = &field.extent {
            let cells = slate.cells.as_mut_slice();
            return Ok(copied(
                copy,
                value_of(size, env),
                walk.places,
                walk.end,
                start,
                cells,
            ));
        }
    }
    Ok(shape(walk, &field.element, &field.extent, env, start, slate)?)
}

// An element, or an array of them.
#[cycle(types)]
fn shape(
    walk: &Walk<'_, '_, '_>,
    element: &Element,
    extent: &Extent,
    env: &[u64],
    start: u32,
    slate: &mut Slate,
) -> Result<Verdict, AllocError>
    requires empty_trace { slate.old.trace ≡ [] }
    ensures ending { IfOk result (λ v. (shape_meaning walk.now.m.now.listed (below walk.now.m.now.listed walk.now.m.now.definitions walk.now.bound) element.now extent.now env.now walk.now.places.now walk.now.message.now walk.now.end start slate.old.cells.items).ending
        ≡ ending_of v slate.new.trace slate.new.cells.items) }
    ensures empty_trace { IfOk result (λ v. (q : ℕ) → v ≡ Verdict.Accept q → slate.new.trace ≡ []) }
{
    match extent {
        Extent::Once => Ok(one_element(walk, element, env, start, start, slate)?),
        Extent::Filling { size, step } => Ok(filling(
            walk,
            element,
            value_of(size, env),
            *step,
            env,
            start,
            slate,
        )?),
        Extent::OnceFilling { size, step } => Ok(once_filling(
            walk,
            element,
            value_of(size, env),
            *step,
            env,
            start,
            slate,
        )?),
        Extent::UpToZero { size } => {
            Ok(up_to_zero(element, value_of(size, env), walk.message, walk.end, start))
        }
        Extent::Given(_) => Ok(Verdict::Accept { pos: start }),
    }
}

// As many elements as fill so many bytes.
#[cycle(types)]
fn filling(
    walk: &Walk<'_, '_, '_>,
    element: &Element,
    size: u64,
    step: Option<u64>,
    env: &[u64],
    start: u32,
    slate: &mut Slate,
) -> Result<Verdict, AllocError>
    requires empty_trace { slate.old.trace ≡ [] }
    ensures ending { IfOk result (λ v. (filled (element_meaning walk.now.m.now.listed (below walk.now.m.now.listed walk.now.m.now.definitions walk.now.bound) element.now env.now walk.now.places.now walk.now.message.now start) step size walk.now.end start slate.old.cells.items).ending
        ≡ ending_of v slate.new.trace slate.new.cells.items) }
    ensures empty_trace { IfOk result (λ v. (q : ℕ) → v ≡ Verdict.Accept q → slate.new.trace ≡ []) }
{
    match place_after(start, size, walk.end) {
        None => Ok(Verdict::Reject {
            reason: Reason::NotEnough,
            pos: start,
        }),
        Some(stop) => {
            if !divides(step, size) {
                return Ok(unfit(start));
            }
            let within = up_to(walk, stop);
            Ok(all_elements(&within, element, env, start, slate)?)
        }
    }
}

// One element, which fills so many bytes.
#[cycle(types)]
fn once_filling(
    walk: &Walk<'_, '_, '_>,
    element: &Element,
    size: u64,
    step: Option<u64>,
    env: &[u64],
    start: u32,
    slate: &mut Slate,
) -> Result<Verdict, AllocError>
    requires empty_trace { slate.old.trace ≡ [] }
    ensures ending { IfOk result (λ v. (filled_once (element_meaning walk.now.m.now.listed (below walk.now.m.now.listed walk.now.m.now.definitions walk.now.bound) element.now env.now walk.now.places.now walk.now.message.now start) step size walk.now.end start slate.old.cells.items).ending
        ≡ ending_of v slate.new.trace slate.new.cells.items) }
    ensures empty_trace { IfOk result (λ v. (q : ℕ) → v ≡ Verdict.Accept q → slate.new.trace ≡ []) }
{
    match place_after(start, size, walk.end) {
        None => Ok(Verdict::Reject {
            reason: Reason::NotEnough,
            pos: start,
        }),
        Some(stop) => {
            if !equals(step, size) {
                return Ok(unfit(start));
            }
            let within = up_to(walk, stop);
            match one_element(&within, element, env, start, start, slate)? {
                Verdict::Accept { pos } => Ok(demand(pos == stop, Reason::ListSize, start, pos)),
                Verdict::Reject { reason, pos } => Ok(Verdict::Reject { reason, pos }),
            }
        }
    }
}

// Elements one after the other, up to the end.
#[cycle(types)]
fn all_elements(
    walk: &Walk<'_, '_, '_>,
    element: &Element,
    env: &[u64],
    start: u32,
    slate: &mut Slate,
) -> Result<Verdict, AllocError>
    requires empty_trace { slate.old.trace ≡ [] }
    ensures ending { IfOk result (λ v. (elements (element_meaning walk.now.m.now.listed (below walk.now.m.now.listed walk.now.m.now.definitions walk.now.bound) element.now env.now walk.now.places.now walk.now.message.now start walk.now.end) (suc (walk.now.end - start)) start walk.now.end start slate.old.cells.items).ending
        ≡ ending_of v slate.new.trace slate.new.cells.items) }
    ensures empty_trace { IfOk result (λ v. (q : ℕ) → v ≡ Verdict.Accept q → slate.new.trace ≡ []) }
{
    let size = walk.end.saturating_sub(start) as u64;
    let mut position = start;
    for turn in 0..size + 1 {
        if position == walk.end {
            return Ok(Verdict::Accept { pos: position });
        }
        match one_element(walk, element, env, start, position, slate)? {
            Verdict::Accept { pos } => position = pos,
            Verdict::Reject { reason, pos } => return Ok(Verdict::Reject { reason, pos }),
        }
    }
    Ok(demand(position == walk.end, Reason::ListSize, start, position))
}

// An element of a field that began at `start`.
#[cycle(types)]
fn one_element(
    walk: &Walk<'_, '_, '_>,
    element: &Element,
    env: &[u64],
    start: u32,
    pos: u32,
    slate: &mut Slate,
) -> Result<Verdict, AllocError>
    requires empty_trace { slate.old.trace ≡ [] }
    ensures ending { IfOk result (λ v. (element_meaning walk.now.m.now.listed (below walk.now.m.now.listed walk.now.m.now.definitions walk.now.bound) element.now env.now walk.now.places.now walk.now.message.now start walk.now.end pos slate.old.cells.items).ending
        ≡ ending_of v slate.new.trace slate.new.cells.items) }
    ensures empty_trace { IfOk result (λ v. (q : ℕ) → v ≡ Verdict.Accept q → slate.new.trace ≡ []) }
{
    match element {
        Element::Number(number_type) => {
            Ok(pass(byte_count(number_type.width), start, walk.end, pos))
        }
        Element::Listed { base, values } => {
            let values = values_at(walk.m.listed.as_slice(), *values);
            Ok(listed_number(*base, values, walk.message, start, walk.end, pos))
        }
        Element::Named {
            definition,
            args,
            cells: own,
        } => {
            let args = values_of(walk.alloc, args.as_slice(), env)?;
            let own = cells_of(walk.alloc, own.as_slice(), walk.places)?;
            let within = Walk {
                alloc: walk.alloc,
                m: walk.m,
                bound: walk.bound,
                places: own.as_slice(),
                message: walk.message,
                end: walk.end,
            };
            Ok(named(&within, *definition, args.as_slice(), pos, slate)?)
        }
        Element::Unit => Ok(Verdict::Accept { pos }),
        Element::Rest => Ok(Verdict::Accept { pos: walk.end }),
        Element::Zeros => Ok(zeros(walk.message, walk.end, pos)),
    }
}
