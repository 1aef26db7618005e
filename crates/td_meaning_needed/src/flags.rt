//! Which numbers of a struct are needed, found in one pass from its last field to its first. It keeps a mark for each
//! level (place in scope, from 0): whether a later part or field names it.

ghost use Rattle.std.specs.Prelude.{◌≡◌, ℕ, ◌+◌, ◌++◌, ◌∷◌, ◌≤◌, ◌||◌, List, [], Bool, false, nat_eq, IfOk, OnErr, length, reverse};
ghost use Rattle.td_core.specs.declared.module.Field.{Field};
ghost use Rattle.td_expr.specs.Naming.{names, deed_names};
ghost use Rattle.td_meaning.specs.Naming.{some_name, in_option, part_names, parts_name, element_names, source_names, extent_names, fields_name, is_needed};
ghost use Rattle.td_meaning_needed.specs.Needed.{Marked, AreMarks, levels_of, needed_list};

use std::alloc::{AllocError, Global};
use td_core::actions::{Action, ActionStep};
use td_core::expressions::{CoreExpr, Node};
use td_core::module::{Element, Extent, Field, Part, Source};
use td_expr::naming::action_names;

// Marks a level, where it has a mark.
fn mark_level(level: u32, marks: &mut [bool])
    ensures { Marked marks.old marks.new (λ i. nat_eq i level) }
{
    if (level as usize) < marks.len() {
        marks[level as usize] = true;
    }
}

// Marks what an expression names.
fn mark_expression(e: &CoreExpr, marks: &mut [bool])
    ensures { Marked marks.old marks.new (λ i. names i e.now) }
{
    match &e.node {
        Node::Number { .. } => {}
        Node::Name { level, .. } => mark_level(*level, marks),
        Node::Complement(a) => mark_expression(a, marks),
        Node::Not(a) => mark_expression(a, marks),
        Node::Compute(_, _, a, b) => {
            mark_expression(a, marks);
            mark_expression(b, marks);
        }
        Node::Compare(_, a, b) => {
            mark_expression(a, marks);
            mark_expression(b, marks);
        }
        Node::Both(a, b) => {
            mark_expression(a, marks);
            mark_expression(b, marks);
        }
        Node::Either(a, b) => {
            mark_expression(a, marks);
            mark_expression(b, marks);
        }
        Node::Choice(a, b, c) => {
            mark_expression(a, marks);
            mark_expression(b, marks);
            mark_expression(c, marks);
        }
        Node::RangeOkay(a, b, c) => {
            mark_expression(a, marks);
            mark_expression(b, marks);
            mark_expression(c, marks);
        }
    }
}

// Marks what expressions name.
fn mark_expressions(exprs: &[CoreExpr], marks: &mut [bool])
    ensures { Marked marks.old marks.new (λ i. some_name i exprs.now) }
{
    let Some((first, rest)) = exprs.split_first() else {
        return;
    };
    mark_expression(first, marks);
    mark_expressions(rest, marks);
}

// Marks what an action names.
fn mark_action(action: &Action, marks: &mut [bool])
    ensures { Marked marks.old marks.new (λ i. deed_names i action.now) }
{
    match &action.step {
        ActionStep::Done => {}
        ActionStep::Set(_, e, then) => {
            mark_expression(e, marks);
            mark_action(then, marks);
        }
        ActionStep::Read(_, then) => mark_action(then, marks),
        ActionStep::If(e, one, other, then) => {
            mark_expression(e, marks);
            mark_action(one, marks);
            mark_action(other, marks);
            mark_action(then, marks);
        }
        ActionStep::Return(e) => mark_expression(e, marks),
        ActionStep::Abort => {}
    }
}

// Marks what a refinement names, where there is one.
fn mark_test(test: &Option<CoreExpr>, marks: &mut [bool])
    ensures { Marked marks.old marks.new (λ i. in_option (names i) test.now) }
{
    match test {
        None => {}
        Some(e) => mark_expression(e, marks),
    }
}

// Marks what an action names, where there is one.
fn mark_effect(action: &Option<Action>, marks: &mut [bool])
    ensures { Marked marks.old marks.new (λ i. in_option (deed_names i) action.now) }
{
    match action {
        None => {}
        Some(action) => mark_action(action, marks),
    }
}

// Marks what a part names.
fn mark_part(part: &Part, marks: &mut [bool])
    ensures { Marked marks.old marks.new (λ i. part_names i part.now) }
{
    mark_test(&part.refinement, marks);
    mark_effect(&part.action, marks);
}

// Marks what an element's arguments name.
fn mark_element(element: &Element, marks: &mut [bool])
    ensures { Marked marks.old marks.new (λ i. element_names i element.now) }
{
    match element {
        Element::Number(_) => {}
        Element::Listed { .. } => {}
        Element::Named { args, .. } => mark_expressions(args.as_slice(), marks),
        Element::Unit => {}
        Element::Rest => {}
        Element::Zeros => {}
    }
}

// Marks what the expression names that gives a field without bytes its number.
fn mark_source(source: &Source, marks: &mut [bool])
    ensures { Marked marks.old marks.new (λ i. source_names i source.now) }
{
    match source {
        Source::Expression { value, .. } => mark_expression(value, marks),
        Source::Cell(_) => {}
        Source::Left => {}
    }
}

// Marks what a size names, or what a number comes from.
fn mark_extent(extent: &Extent, marks: &mut [bool])
    ensures { Marked marks.old marks.new (λ i. extent_names i extent.now) }
{
    match extent {
        Extent::Once => {}
        Extent::Filling { size, .. } => mark_expression(size, marks),
        Extent::OnceFilling { size, .. } => mark_expression(size, marks),
        Extent::UpToZero { size } => mark_expression(size, marks),
        Extent::Given(source) => mark_source(source, marks),
    }
}

// Whether an action, where there is one, names a level.
fn effect_names(level: usize, action: &Option<Action>) -> bool
    ensures { result ≡ in_option (deed_names level) action.now }
{
    match action {
        None => false,
        Some(action) => action_names(level, action),
    }
}

// Whether the number of these parts is needed, where what the later fields name is marked. What the parts name is marked
// too.
fn need_parts(level: usize, parts: &[Part], marks: &mut [bool]) -> bool
    requires room { level + length parts.now ≤ length marks.old }
    ensures long { length marks.new ≡ length marks.old }
    ensures need { (later : List Field) → AreMarks marks.old (λ i. fields_name i later)
        → result ≡ is_needed level parts.now later }
    ensures marks { (later : List Field) → AreMarks marks.old (λ i. fields_name i later)
        → AreMarks marks.new (λ i. parts_name i parts.now || fields_name i later) }
{
    let Some((part, rest)) = parts.split_first() else {
        return false;
    };
    let later = need_parts(level + 1, rest, marks);
    let named = marks[level];
    mark_part(part, marks);
    part.refinement.is_some() || (effect_names(level, &part.action) || (named || later))
}

// For each field whether its number is needed, the last field's first. What they name is marked.
fn need_fields(
    level: usize,
    fields: &[Field],
    marks: &mut [bool],
    flags: &mut Vec<bool>,
) -> Result<(), AllocError>
    requires room { level + levels_of fields.now ≤ length marks.old }
    requires clear { AreMarks marks.old (λ i. false) }
    ensures long { length marks.new ≡ length marks.old }
    ensures marks { IfOk result (λ u. AreMarks marks.new (λ i. fields_name i fields.now)) }
    ensures flags { IfOk result (λ u. flags.new.items ≡ flags.old.items ++ reverse (needed_list level fields.now)) }
{
    let Some((field, later)) = fields.split_first() else {
        return Ok(());
    };
    let parts = field.parts.as_slice();
    need_fields(level + parts.len(), later, marks, flags)?;
    let need = need_parts(level, parts, marks);
    mark_element(&field.element, marks);
    mark_extent(&field.extent, marks);
    flags.push(need)?;
    Ok(())
}

// As many levels without a mark as there are values in scope and parts of fields.
fn no_marks(alloc: Global, env: &[u64], fields: &[Field]) -> Result<Vec<bool>, AllocError>
    ensures long { IfOk result (λ marks. length env.now + levels_of fields.now ≤ length marks.items) }
    ensures clear { IfOk result (λ marks. AreMarks marks.items (λ i. false)) }
{
    let mut marks = Vec::new(alloc);
    for _value in env {
        marks.push(false)?;
    }
    for field in fields {
        add_marks(field.parts.as_slice(), &mut marks)?;
    }
    Ok(marks)
}

// A level more for each part, without a mark.
fn add_marks(parts: &[Part], marks: &mut Vec<bool>) -> Result<(), AllocError>
    requires clear { AreMarks marks.old.items (λ i. false) }
    ensures long { IfOk result (λ u. length marks.new.items ≡ length marks.old.items + length parts.now) }
    ensures clear { IfOk result (λ u. AreMarks marks.new.items (λ i. false)) }
{
    for _part in parts {
        marks.push(false)?;
    }
    Ok(())
}

/// For each field whether its number is needed, with the values in scope before the first. `AllocError`: there was no
/// memory for these.
pub fn needed_of(alloc: Global, env: &[u64], fields: &[Field]) -> Result<Vec<bool>, AllocError>
    ensures { IfOk result (λ flags. flags.items ≡ needed_list (length env.now) fields.now) }
{
    let mut marks = no_marks(alloc, env, fields)?;
    let mut flags = Vec::new(alloc);
    need_fields(env.len(), fields, marks.as_mut_slice(), &mut flags)?;
    flags.reverse();
    Ok(flags)
}
