//! Registers: one more than the greatest that is used.
#![tactic(auto, using(td_lower_blocks::proofs::Heights::computed_top, td_core::proofs::Nodes::some_node, crate::proofs::Measures::args_nodes))]

ghost use Rattle.std.specs.Prelude.{◌≡◌, ◌<◌, ◌+◌, ◌*◌, ◌^◌, suc, length};
ghost use Rattle.td_core.specs.Term.{measure};
ghost use Rattle.td_lower_blocks.specs.Lowered.{terms_of};
ghost use Rattle.td_core.specs.Weights.{terms_nodes, option_nodes, deed_nodes, action_nodes, part_nodes, element_nodes, extent_nodes, source_nodes, total, fields_nodes, default_nodes, cases_nodes, head_nodes, body_nodes};
ghost use Rattle.td_lower_blocks.specs.Tops.{term_top, terms_top, test_top, deed_top, action_top, parts_top, sized_top, source_top, shape_top, content_top, fields_top, default_top, cases_top, body_top, definition_top};

use td_core::actions::{Action, ActionStep};
use td_core::expressions::{CoreExpr, Node, Relation};
use td_core::module::{Body, Case, CopyOut, Element, Extent, Field, Part, Source, TypeDef};
use td_num::items::Items;

// Of an expression in register `t`.
fn value_top(t: u64, e: &CoreExpr) -> u64
    requires { t + measure e.now < 2 ^ 60 }
    ensures { result ≡ term_top t e.now }
{
    match &e.node {
        Node::Number { .. } => t + 1,
        Node::Name { level, .. } => (t + 1).max(*level as u64 + 1),
        Node::Complement(a) => (t + 2).max(value_top(t, a)),
        Node::Not(a) => (t + 2).max(value_top(t, a)),
        Node::Compute(_, _, a, b) => value_top(t, a).max(value_top(t + 1, b)),
        Node::Compare(relation, a, b) => match relation {
            Relation::Greater => value_top(t, b).max(value_top(t + 1, a)),
            Relation::GreaterEqual => value_top(t, b).max(value_top(t + 1, a)),
            Relation::Equal => value_top(t, a).max(value_top(t + 1, b)),
            Relation::NotEqual => value_top(t, a).max(value_top(t + 1, b)),
            Relation::Less => value_top(t, a).max(value_top(t + 1, b)),
            Relation::LessEqual => value_top(t, a).max(value_top(t + 1, b)),
        },
        Node::Both(a, b) => value_top(t, a).max(value_top(t, b)),
        Node::Either(a, b) => value_top(t, a).max(value_top(t, b)),
        Node::Choice(c, a, b) => value_top(t, c).max(value_top(t, a).max(value_top(t, b))),
        Node::RangeOkay(size, offset, access) => {
            let further = value_top(t + 1, offset).max(value_top(t + 2, access));
            (t + 4).max(value_top(t, size).max(further))
        }
    }
}

// Of arguments, the first in register `t`.
fn terms_top(t: u64, args: &[CoreExpr]) -> u64
    requires { t + terms_nodes args.now < 2 ^ 60 }
    ensures { result ≡ terms_top t args.now }
{
    let Some((first, rest)) = args.split_first() else {
        return t + 1;
    };
    value_top(t, first).max(terms_top(t + 1, rest))
}

// Of a test, where there is one.
fn test_top(t: u64, test: &Option<CoreExpr>) -> u64
    requires { t + option_nodes test.now < 2 ^ 60 }
    ensures { result ≡ test_top t test.now }
{
    match test {
        None => t + 1,
        Some(e) => value_top(t, e),
    }
}

// Of an action, with values that it reads from a level on.
fn deed_top(level: u64, t: u64, action: &Action) -> u64
    requires { level + t + deed_nodes action.now < 2 ^ 60 }
    ensures { result ≡ deed_top level t action.now }
{
    match &action.step {
        ActionStep::Done => t + 1,
        ActionStep::Set(_, e, then) => value_top(t, e).max(deed_top(level, t, then)),
        ActionStep::Read(_, then) => (level + 1).max(deed_top(level + 1, t, then)),
        ActionStep::If(e, one, other, then) => {
            let first = deed_top(level, t + 1, one);
            let second = deed_top(level, t + 1, other);
            value_top(t, e).max(first.max(second.max(deed_top(level, t, then))))
        }
        ActionStep::Return(e) => value_top(t, e),
        ActionStep::Abort => t + 1,
    }
}

// Of an action with the place of its field, where there is one.
fn action_top(level: u64, t: u64, action: &Option<Action>) -> u64
    requires { level + t + action_nodes action.now + 1 < 2 ^ 60 }
    ensures { result ≡ action_top level t action.now }
{
    match action {
        None => t + 1,
        Some(action) => (level + 1).max(deed_top(level + 1, t, action)),
    }
}

// Of a field's parts.
fn parts_top(level: u64, t: u64, parts: &[Part]) -> u64
    requires { level + t + (length parts.now + total part_nodes parts.now) + 3 < 2 ^ 60 }
    ensures { result ≡ parts_top level t parts.now }
{
    let Some((part, rest)) = parts.split_first() else {
        return t + 1;
    };
    let test = test_top(t + 1, &part.refinement);
    let action = action_top(level + 1, t + 1, &part.action);
    (level + 1).max(test.max(action.max(parts_top(level + 1, t, rest))))
}

// The arguments of an element.
fn args_of(element: &Element) -> &[CoreExpr]
    ensures { result.now ≡ terms_of element.now }
{
    match element {
        Element::Named { args, .. } => args.as_slice(),
        Element::Number(_) | Element::Listed { .. } => &[],
        Element::Unit | Element::Rest | Element::Zeros => &[],
    }
}

// Of an array or a single element, by its bytes.
fn sized_top(t: u64, element: &Element, size: &CoreExpr) -> u64
    requires { t + (element_nodes element.now + measure size.now) + 4 < 2 ^ 60 }
    ensures { result ≡ sized_top t element.now size.now }
{
    let args = args_of(element);
    let u = t + 1 + args.len() as u64;
    let arguments = terms_top(t + 1, args);
    arguments.max((u + 3).max(value_top(u, size)))
}

// Of a number without bytes.
fn source_top(t: u64, source: &Source) -> u64
    requires { t + source_nodes source.now < 2 ^ 60 }
    ensures { result ≡ source_top t source.now }
{
    match source {
        Source::Expression { value, .. } => value_top(t, value),
        Source::Cell(_) | Source::Left => t + 1,
    }
}

// Of what stands in a field.
fn shape_top(t: u64, element: &Element, extent: &Extent) -> u64
    requires { t + (element_nodes element.now + extent_nodes extent.now) + 4 < 2 ^ 60 }
    ensures { result ≡ shape_top t element.now extent.now }
{
    match extent {
        Extent::Once => (t + 2).max(terms_top(t + 1, args_of(element))),
        Extent::Filling { size, .. } => sized_top(t, element, size),
        Extent::OnceFilling { size, .. } => sized_top(t, element, size),
        Extent::UpToZero { size } => value_top(t + 1, size),
        Extent::Given(source) => source_top(t + 1, source),
    }
}

// The same, and of what is copied its size too.
fn content_top(t: u64, element: &Element, extent: &Extent, copy: Option<CopyOut>) -> u64
    requires { t + (element_nodes element.now + extent_nodes extent.now) + 4 < 2 ^ 60 }
    ensures { result ≡ content_top t element.now extent.now copy }
{
    let shape = shape_top(t, element, extent);
    match (copy, extent) {
        (Some(_), Extent::Filling { size, .. }) => shape.max(value_top(t + 1, size)),
        _ => shape,
    }
}

// Of fields.
fn fields_top(level: u64, t: u64, fields: &[Field]) -> u64
    requires { level + t + fields_nodes fields.now + 4 < 2 ^ 60 }
    ensures { result ≡ fields_top level t fields.now }
{
    let Some((field, later)) = fields.split_first() else {
        return t + 1;
    };
    let parts = field.parts.as_slice();
    let shape = content_top(t, &field.element, &field.extent, field.copy);
    let own = parts_top(level, t, parts);
    shape.max(own.max(fields_top(parts.len() as u64 + level, t, later)))
}

// Of the fields of `default`, where there is one.
fn default_top(level: u64, t: u64, default: &Option<Items<Field>>) -> u64
    requires { level + t + default_nodes default.now + 4 < 2 ^ 60 }
    ensures { result ≡ default_top level t default.now }
{
    match default {
        None => t + 1,
        Some(fields) => fields_top(level, t, fields.as_slice()),
    }
}

// Of cases.
fn cases_top(level: u64, t: u64, cases: &[Case]) -> u64
    requires { level + t + cases_nodes cases.now + 4 < 2 ^ 60 }
    ensures { result ≡ cases_top level t cases.now }
{
    let Some((case, rest)) = cases.split_first() else {
        return t + 1;
    };
    let own = fields_top(level, t, case.fields.as_slice());
    own.max(cases_top(level, t, rest))
}

// Of a body.
fn body_top(level: u64, t: u64, body: &Body) -> u64
    requires { level + t + body_nodes body.now + 4 < 2 ^ 60 }
    ensures { result ≡ body_top level t body.now }
{
    match body {
        Body::Struct(fields) => fields_top(level, t, fields.as_slice()),
        Body::Casetype {
            switch,
            cases,
            default,
        } => {
            let own = cases_top(level, t, cases.as_slice()).max(default_top(level, t, default));
            (t + 3).max(value_top(t + 1, switch).max(own))
        }
    }
}

/// Of a definition, with the unit of bit fields in register `t`: how many registers its routine needs.
pub fn definition_top(t: u64, d: &TypeDef) -> u64
    requires { t + (head_nodes d.now + body_nodes d.now.body) + 4 < 2 ^ 60 }
    ensures { result ≡ definition_top t d.now }
{
    let guard = test_top(t + 1, &d.guard);
    (t + 2).max(guard.max(body_top(d.params.len() as u64, t, &d.body)))
}
