//! Copied fields.

ghost use Rattle.std.specs.Prelude.{◌≡◌, ◌≤◌, ◌+◌, ◌^◌, IfOk, OnErr, IsSomeAnd};
ghost use Rattle.td_elab_rules.specs.Breach.{first_of};
ghost use Rattle.td_elab_rules.specs.Copies.{are_bytes, buffer_breaches, copied_breaches, copy_to, found_copy, copied_core};

use std::alloc::AllocError;
use td_ast::actions::ActionTree;
use td_ast::fields::{ExtentTree, TypeTree};
use td_ast::token::Span;
use td_core::module::CopyOut;
use td_elab_exprs::findings::Findings;
use td_elab_exprs::look_up::look_up;
use td_elab_rules::breach::Rule;
use td_elab_rules::known::{Found, Known, Local, Scope};
use td_elab_types::buffers::first_cell;
use td_elab_types::types::{is_byte, number_type};

/// Whether it is a byte-sized array of `UINT8`.
pub(crate) fn are_bytes(
    known: &Known,
    scope: &Scope,
    tree: &TypeTree,
    extent: &Option<ExtentTree>,
) -> bool
    ensures { result ≡ are_bytes known.now scope.now tree.now extent.now }
{
    match extent {
        Some(ExtentTree::Bytes(_) | ExtentTree::ByteSize(_)) => {
            is_byte(number_type(known, scope, tree))
        }
        _ => false,
    }
}

/// Notes a name that isn't known, or is no copy buffer's.
fn check_buffer(found: Found, at: Span, findings: &mut Findings)
    ensures { findings.new.first ≡ first_of findings.old.first (buffer_breaches found at) }
{
    match found {
        Found::Nothing => findings.note(Rule::Unknown, at),
        Found::Local(Local::Buffer(_)) => {}
        Found::Local(_) | Found::Global(_) => findings.note(Rule::WrongArgs, at),
    }
}

/// Where the bytes of a field go, to the copy buffer at a place. `AllocError`: its cells are at 2^32 or further.
fn copy_to(scope: &Scope, at: Span, place: u32) -> Result<Option<CopyOut>, AllocError>
    ensures core { IfOk result (λ c. c ≡ copy_to scope.now at place) }
    ensures full { OnErr result (IsSomeAnd (copy_to scope.now at place) (λ c. 2 ^ 32 ≤ c.cell + 1)) }
{
    let Some(room) = scope.buffers.as_slice().get(place as usize) else {
        return Ok(None);
    };
    let cell = first_cell(scope.cells.len(), place)?;
    Ok(Some(CopyOut {
        buffer: place,
        cell,
        room: *room,
        span: at,
    }))
}

/// Where the bytes of a field go, to the copy buffer that was found. `AllocError`: its cells are at 2^32 or further.
fn found_copy(scope: &Scope, at: Span, found: Found) -> Result<Option<CopyOut>, AllocError>
    ensures core { IfOk result (λ c. c ≡ found_copy scope.now at found) }
    ensures full { OnErr result (IsSomeAnd (found_copy scope.now at found) (λ c. 2 ^ 32 ≤ c.cell + 1)) }
{
    match found {
        Found::Local(Local::Buffer(place)) => copy_to(scope, at, place),
        _ => Ok(None),
    }
}

/// Where the bytes of a field go that is a byte-sized array of `UINT8`, or isn't, and is in scope; its breaches are noted.
/// `AllocError`: it is copied, and the cells of its buffer are at 2^32 or further.
#[tactic(auto, using(td_elab_exprs::proofs::Steps::first_append))]
pub fn copy(
    known: &Known,
    scope: &Scope,
    bytes: bool,
    action: &Option<ActionTree>,
    findings: &mut Findings,
) -> Result<Option<CopyOut>, AllocError>
    ensures core { IfOk result (λ c. c ≡ copied_core known.now scope.now bytes action.now) }
    ensures full { OnErr result (IsSomeAnd (copied_core known.now scope.now bytes action.now) (λ c. 2 ^ 32 ≤ c.cell + 1)) }
    ensures first { findings.new.first ≡ first_of findings.old.first (copied_breaches known.now scope.now bytes action.now) }
{
    match action {
        None | Some(ActionTree::Done { .. }) => Ok(None),
        Some(ActionTree::Copied { span, name }) => {
            findings.note_if(!bytes, Rule::BadAction, *span);
            let found = look_up(known, scope, name.text.as_slice());
            check_buffer(found, name.span, findings);
            if bytes {
                found_copy(scope, *span, found)
            } else {
                Ok(None)
            }
        }
    }
}
