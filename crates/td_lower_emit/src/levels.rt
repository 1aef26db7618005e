//! The levels of values in scope: one more than the greatest, from one on.

ghost use Rattle.std.specs.Prelude.{◌≡◌, ◌<◌, ◌+◌, ◌*◌, ◌^◌, length};
ghost use Rattle.td_core.specs.Weights.{deed_nodes, action_nodes, part_nodes, total, fields_nodes, default_nodes, cases_nodes, body_nodes};
ghost use Rattle.td_lower_blocks.specs.Tops.{deed_levels, action_levels, parts_levels, fields_levels, default_levels, cases_levels, body_levels, definition_levels};

use td_core::actions::{Action, ActionStep};
use td_core::module::{Body, Case, Field, Part, TypeDef};
use td_num::items::Items;

// Of an action.
fn deed_levels(level: u64, action: &Action) -> u64
    requires { level + deed_nodes action.now < 2 ^ 60 }
    ensures { result ≡ deed_levels level action.now }
{
    match &action.step {
        ActionStep::Done => level,
        ActionStep::Set(_, _, then) => deed_levels(level, then),
        ActionStep::Read(_, then) => deed_levels(level + 1, then),
        ActionStep::If(_, one, other, then) => {
            let first = deed_levels(level, one);
            let second = deed_levels(level, other);
            first.max(second.max(deed_levels(level, then)))
        }
        ActionStep::Return(_) => level,
        ActionStep::Abort => level,
    }
}

// Of an action with the place of its field, where there is one.
fn action_levels(level: u64, action: &Option<Action>) -> u64
    requires { level + action_nodes action.now + 1 < 2 ^ 60 }
    ensures { result ≡ action_levels level action.now }
{
    match action {
        None => level,
        Some(action) => deed_levels(level + 1, action),
    }
}

// Of a field's parts.
fn parts_levels(level: u64, parts: &[Part]) -> u64
    requires { level + (length parts.now + total part_nodes parts.now) + 2 < 2 ^ 60 }
    ensures { result ≡ parts_levels level parts.now }
{
    let Some((part, rest)) = parts.split_first() else {
        return level;
    };
    let own = action_levels(level + 1, &part.action);
    own.max(parts_levels(level + 1, rest))
}

// Of fields.
fn fields_levels(level: u64, fields: &[Field]) -> u64
    requires { level + fields_nodes fields.now + 2 < 2 ^ 60 }
    ensures { result ≡ fields_levels level fields.now }
{
    let Some((field, later)) = fields.split_first() else {
        return level;
    };
    let parts = field.parts.as_slice();
    let own = parts_levels(level, parts);
    own.max(fields_levels(parts.len() as u64 + level, later))
}

// Of the fields of `default`, where there is one.
fn default_levels(level: u64, default: &Option<Items<Field>>) -> u64
    requires { level + default_nodes default.now + 2 < 2 ^ 60 }
    ensures { result ≡ default_levels level default.now }
{
    match default {
        None => level,
        Some(fields) => fields_levels(level, fields.as_slice()),
    }
}

// Of cases.
fn cases_levels(level: u64, cases: &[Case]) -> u64
    requires { level + cases_nodes cases.now + 2 < 2 ^ 60 }
    ensures { result ≡ cases_levels level cases.now }
{
    let Some((case, rest)) = cases.split_first() else {
        return level;
    };
    let own = fields_levels(level, case.fields.as_slice());
    own.max(cases_levels(level, rest))
}

/// Of a definition: one more than the greatest level of a value in scope in it.
pub fn definition_levels(d: &TypeDef) -> u64
    requires { length d.now.params + body_nodes d.now.body + 2 < 2 ^ 60 }
    ensures { result ≡ definition_levels d.now }
{
    let level = d.params.len() as u64;
    match &d.body {
        Body::Struct(fields) => fields_levels(level, fields.as_slice()),
        Body::Casetype { cases, default, .. } => {
            let own = cases_levels(level, cases.as_slice());
            own.max(default_levels(level, default))
        }
    }
}
