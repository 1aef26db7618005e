//! The limits by count.

ghost use Rattle.std.specs.Prelude.{◌≡◌, ◌+◌, ◌++◌, List, Some, length, IfOk, MatchResult};
ghost use Rattle.td_limits.specs.Imports.{Def};
ghost use Rattle.td_limits.specs.Counts.{AreWithin, count_cases, count_excesses, count_params, counts_passed, counts_passed_in, default_count, definition_counts, longest_case, most_action, most_fields};
ghost use Rattle.td_limits.specs.Excesses.{capped, definition_name, first_excess};

use crate::limits::{Excess, Limit, excess_over};
use crate::longest_action::most_action;
use crate::nodes::definition_nodes;
use td_ast::definitions::{CaseTree, Def, ModuleTree};
use td_ast::fields::FieldTree;
use td_ast::parts::PartTree;
use td_ast::token::Span;
use td_core::limits::{
    MOST_ACTION_NODES, MOST_CASES, MOST_DEFINITIONS, MOST_FIELDS, MOST_NODES, MOST_PARAMETERS,
};
use td_num::items::Items;

/// Where a definition's name stands.
pub(crate) fn name_span(definition: &Def) -> Span
    ensures { result ≡ (definition_name definition.now).span }
{
    match definition {
        Def::Define(tree) => tree.name.span,
        Def::Enum(tree) => tree.name.span,
        Def::Alias(tree) => tree.name.span,
        Def::Struct(tree) => tree.name.span,
        Def::Casetype(tree) => tree.name.span,
        Def::Output(tree) => tree.name.span,
    }
}

// The fields of the case with the most of them.
fn longest_case(cases: &[CaseTree]) -> u64
    ensures { result ≡ longest_case cases.now }
{
    let mut longest = 0u64;
    for case in cases {
        longest = longest.max(case.fields.len() as u64);
    }
    longest
}

fn default_count(default: &Option<Items<FieldTree>>) -> u64
    ensures { result ≡ default_count default.now }
{
    match default {
        None => 0,
        Some(fields) => fields.len() as u64,
    }
}

// The fields of a struct, of the case with the most of them, or the slots of a record.
fn most_fields(definition: &Def) -> u64
    ensures { result ≡ most_fields definition.now }
{
    match definition {
        Def::Define(_) => 0,
        Def::Enum(_) => 0,
        Def::Alias(_) => 0,
        Def::Struct(tree) => tree.fields.len() as u64,
        Def::Casetype(tree) => {
            longest_case(tree.cases.as_slice()).max(default_count(&tree.default))
        }
        Def::Output(tree) => tree.slots.len() as u64,
    }
}

fn count_cases(definition: &Def) -> u64
    ensures { result ≡ count_cases definition.now }
{
    match definition {
        Def::Casetype(tree) => tree.cases.len() as u64,
        Def::Define(_) => 0,
        Def::Enum(_) => 0,
        Def::Alias(_) => 0,
        Def::Struct(_) => 0,
        Def::Output(_) => 0,
    }
}

fn count_params(definition: &Def) -> u64
    ensures { result ≡ count_params definition.now }
{
    match definition {
        Def::Struct(tree) => tree.head.params.len() as u64,
        Def::Casetype(tree) => tree.head.params.len() as u64,
        Def::Define(_) => 0,
        Def::Enum(_) => 0,
        Def::Alias(_) => 0,
        Def::Output(_) => 0,
    }
}

// The first limit by count that a definition passes, which is the text's n-th, with so many nodes up to its end.
fn definition_counts(n: u64, nodes: u64, definition: &Def) -> Option<Excess>
    ensures { result ≡ first_excess (definition_counts n nodes definition.now) }
{
    let span = name_span(definition);
    if n > MOST_DEFINITIONS {
        return excess_over(MOST_DEFINITIONS, n, Limit::Definitions, span);
    }
    let fields = most_fields(definition);
    if fields > MOST_FIELDS {
        return excess_over(MOST_FIELDS, fields, Limit::Fields, span);
    }
    let cases = count_cases(definition);
    if cases > MOST_CASES {
        return excess_over(MOST_CASES, cases, Limit::Cases, span);
    }
    let parameters = count_params(definition);
    if parameters > MOST_PARAMETERS {
        return excess_over(MOST_PARAMETERS, parameters, Limit::Parameters, span);
    }
    if nodes > MOST_NODES {
        return excess_over(MOST_NODES, nodes, Limit::Nodes, span);
    }
    let action = most_action(definition);
    excess_over(MOST_ACTION_NODES, action, Limit::Action, span)
}

/// How many definitions there are so far, and how many nodes they have.
#[derive(Clone, Copy)]
struct Counted {
    definitions: u64,
    nodes: u64,
}

const NONE_COUNTED: Counted = Counted {
    definitions: 0,
    nodes: 0,
};

// Counts definitions that stand after those which were counted. The error is the first limit by count that they pass.
fn count_on(before: Counted, definitions: &[Def]) -> Result<Counted, Excess>
    requires { AreWithin before.definitions before.nodes }
    ensures passed { (more : List Def) → MatchResult result
        (λ after. first_excess (count_excesses after.definitions after.nodes more) ≡ first_excess (count_excesses before.definitions before.nodes (definitions.now ++ more)))
        (λ excess. Some excess ≡ first_excess (count_excesses before.definitions before.nodes (definitions.now ++ more))) }
    ensures within { IfOk result (λ after. AreWithin after.definitions after.nodes) }
{
    let mut count = before.definitions;
    let mut nodes = before.nodes;
    for definition in definitions {
        count = count.saturating_add(1);
        nodes = nodes.saturating_add(definition_nodes(definition));
        match definition_counts(count, nodes, definition) {
            None => {}
            Some(excess) => return Err(excess),
        }
    }
    Ok(Counted {
        definitions: count,
        nodes,
    })
}

/// The first limit by count that a text passes: how many definitions it has, how many fields a struct, case or record, how
/// many cases a casetype, how many parameters a definition, how many nodes all, and how many an action. Takes no memory.
pub fn counts_passed(tree: &ModuleTree) -> Option<Excess>
    ensures { result ≡ counts_passed tree.now }
{
    match count_on(NONE_COUNTED, tree.definitions.as_slice()) {
        Ok(_) => None,
        Err(excess) => Some(excess),
    }
}

/// The first limit by count that the definitions of parts pass, one part after the other in the order of the text. Takes
/// no memory.
pub fn counts_passed_in(parts: &[PartTree]) -> Option<Excess>
    ensures { result ≡ counts_passed_in parts.now }
{
    let mut so_far = NONE_COUNTED;
    for part in parts {
        match count_on(so_far, part.definitions.as_slice()) {
            Ok(after) => so_far = after,
            Err(excess) => return Some(excess),
        }
    }
    None
}
