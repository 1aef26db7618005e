//! Rooms of copy buffers.

ghost use Rattle.std.specs.Prelude.{◌≡◌};
ghost use Rattle.td_elab_rules.specs.Breach.{first_of};
ghost use Rattle.td_elab_rules.specs.Parameters.{is_room, room_or_none, buffer_room, is_past_room, room_breaches};

use crate::constants::{check_constant, constant_span, constant_value};
use td_ast::names::ConstTree;
use td_core::limits::MOST_ROOM;
use td_elab_exprs::findings::Findings;
use td_elab_rules::breach::Rule;
use td_elab_rules::known::{Known, Scope};

/// Whether a copy buffer may have so much room.
fn is_room(n: u64) -> bool
    ensures { result ≡ is_room n }
{
    0 < n && n <= MOST_ROOM
}

/// The room, where there is one that a copy buffer may have.
fn room_or_none(value: Option<u64>) -> Option<u32>
    ensures { result ≡ room_or_none value }
{
    match value {
        Some(n) if is_room(n) => Some(n as u32),
        _ => None,
    }
}

/// The room of a copy buffer.
pub fn buffer_room(known: &Known, scope: &Scope, tree: &ConstTree) -> Option<u32>
    ensures { result ≡ buffer_room known.now scope.now tree.now }
{
    room_or_none(constant_value(known, scope, tree))
}

/// Whether it is a number that is no room.
fn is_past_room(value: Option<u64>) -> bool
    ensures { result ≡ is_past_room value }
{
    match value {
        Some(n) => !is_room(n),
        None => false,
    }
}

/// Notes what the room of a copy buffer breaks.
#[tactic(auto, using(td_elab_exprs::proofs::Steps::first_append))]
pub(crate) fn check_room(known: &Known, scope: &Scope, tree: &ConstTree, findings: &mut Findings)
    ensures { findings.new.first ≡ first_of findings.old.first (room_breaches known.now scope.now tree.now) }
{
    check_constant(known, scope, tree, findings);
    let value = constant_value(known, scope, tree);
    findings.note_if(is_past_room(value), Rule::Narrowing, constant_span(tree));
}
