//! The nodes of a definition's longest action. A count that 64 bits don't hold stands still at their end.

ghost use Rattle.std.specs.Prelude.{◌≡◌, map};
ghost use Rattle.td_limits.specs.Counts.{default_action, fields_action, most_action};
ghost use Rattle.td_limits.specs.Excesses.{capped, greatest};

use crate::nodes::action_nodes;
use td_ast::definitions::{CaseTree, Def};
use td_ast::fields::FieldTree;
use td_num::items::Items;

fn fields_action(fields: &[FieldTree]) -> u64
    ensures { result ≡ capped (fields_action fields.now) }
{
    let mut longest = 0u64;
    for field in fields {
        longest = longest.max(action_nodes(&field.action));
    }
    longest
}

fn cases_action(cases: &[CaseTree]) -> u64
    ensures { result ≡ capped (greatest (map (λ c. fields_action c.fields) cases.now)) }
{
    let mut longest = 0u64;
    for case in cases {
        longest = longest.max(fields_action(case.fields.as_slice()));
    }
    longest
}

fn default_action(default: &Option<Items<FieldTree>>) -> u64
    ensures { result ≡ capped (default_action default.now) }
{
    match default {
        None => 0,
        Some(fields) => fields_action(fields.as_slice()),
    }
}

/// The nodes of the action of a definition that has the most.
pub(crate) fn most_action(definition: &Def) -> u64
    ensures { result ≡ capped (most_action definition.now) }
{
    match definition {
        Def::Define(_) => 0,
        Def::Enum(_) => 0,
        Def::Alias(_) => 0,
        Def::Struct(tree) => fields_action(tree.fields.as_slice()),
        Def::Casetype(tree) => {
            cases_action(tree.cases.as_slice()).max(default_action(&tree.default))
        }
        Def::Output(_) => 0,
    }
}
