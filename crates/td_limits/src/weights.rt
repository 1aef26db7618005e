//! How heavy a definition is, and how many cells it has. A number that 64 bits don't hold stands still at their end.

ghost use Rattle.std.specs.Prelude.{◌≡◌, ◌+◌, ◌*◌, map, sum};
ghost use Rattle.td_ast.specs.Extents.{is_array};
ghost use Rattle.td_limits.specs.Excesses.{capped};
ghost use Rattle.td_limits.specs.Measures.{type_cells_of, type_weight_of};
ghost use Rattle.td_limits.specs.Weights.{case_weight, count_cells, default_weight, definition_weight, field_weight, fields_weight, head_cells, in_array, kind_weight, param_cells, plain_weight, target_cells};

use crate::measures::Measure;
use crate::nodes::{expr_nodes, head_nodes, inner_nodes};
use td_ast::definitions::{CaseTree, Def};
use td_ast::fields::{ExtentTree, FieldTree, TypeKind};
use td_ast::names::PlainTree;
use td_ast::parameters::{HeadTree, ParamTree, TargetTree};
use td_names::table::Table;
use td_num::items::Items;

// The weight of the definition that a name at a type's place names.
fn type_weight(known: &Table<Measure>, name: &[u8]) -> u64
    ensures { result ≡ type_weight_of known.now name.now }
{
    match known.get(name) {
        None => 0,
        Some(measure) => measure.weight,
    }
}

fn type_cells(known: &Table<Measure>, name: &[u8]) -> u64
    ensures { result ≡ type_cells_of known.now name.now }
{
    match known.get(name) {
        None => 1,
        Some(measure) => measure.cells,
    }
}

fn kind_weight(known: &Table<Measure>, kind: &TypeKind) -> u64
    ensures { result ≡ kind_weight known.now kind.now }
{
    match kind {
        TypeKind::Number(_) => 0,
        TypeKind::Unit => 0,
        TypeKind::AllBytes => 0,
        TypeKind::AllZeros => 0,
        TypeKind::Named(name, _) => type_weight(known, name.as_slice()),
    }
}

fn is_array(extent: &Option<ExtentTree>) -> bool
    ensures { result ≡ is_array extent.now }
{
    match extent {
        None => false,
        Some(ExtentTree::Bytes(_)) => true,
        Some(ExtentTree::ByteSize(_)) => true,
        Some(ExtentTree::SingleElement(_)) => true,
        Some(ExtentTree::Zeroterm(_)) => true,
        Some(ExtentTree::Bits(_)) => false,
        Some(ExtentTree::Given(_)) => false,
        Some(ExtentTree::OfCell(_, _)) => false,
    }
}

fn field_weight(known: &Table<Measure>, field: &FieldTree) -> u64
    ensures { result ≡ capped (field_weight known.now field.now) }
{
    let weight = inner_nodes(field)
        .saturating_mul(8)
        .saturating_add(kind_weight(known, &field.type_tree.kind))
        .saturating_add(32);
    if is_array(&field.extent) {
        weight.saturating_mul(2).saturating_add(64)
    } else {
        weight
    }
}

fn fields_weight(known: &Table<Measure>, fields: &[FieldTree]) -> u64
    ensures { result ≡ capped (fields_weight known.now fields.now) }
{
    let mut total = 0u64;
    for field in fields {
        total = total.saturating_add(field_weight(known, field));
    }
    total
}

fn cases_weight(known: &Table<Measure>, cases: &[CaseTree]) -> u64
    ensures { result ≡ capped (sum (map (case_weight known.now) cases.now)) }
{
    let mut total = 0u64;
    for case in cases {
        let fields = fields_weight(known, case.fields.as_slice());
        total = total.saturating_add(fields.saturating_add(8));
    }
    total
}

fn default_weight(known: &Table<Measure>, default: &Option<Items<FieldTree>>) -> u64
    ensures { result ≡ capped (default_weight known.now default.now) }
{
    match default {
        None => 0,
        Some(fields) => fields_weight(known, fields.as_slice()),
    }
}

fn plain_weight(known: &Table<Measure>, plain: &PlainTree) -> u64
    ensures { result ≡ plain_weight known.now plain.now }
{
    match plain {
        PlainTree::Number(_) => 0,
        PlainTree::Named(name) => type_weight(known, name.text.as_slice()),
    }
}

/// The weight of a definition.
pub(crate) fn definition_weight(known: &Table<Measure>, definition: &Def) -> u64
    ensures { result ≡ capped (definition_weight known.now definition.now) }
{
    match definition {
        Def::Define(_) => 32,
        Def::Enum(_) => 32,
        Def::Alias(tree) => plain_weight(known, &tree.target).saturating_add(32),
        Def::Struct(tree) => head_nodes(&tree.head)
            .saturating_mul(8)
            .saturating_add(fields_weight(known, tree.fields.as_slice()))
            .saturating_add(32),
        Def::Casetype(tree) => {
            let nodes = head_nodes(&tree.head).saturating_add(expr_nodes(&tree.subject));
            let cases = cases_weight(known, tree.cases.as_slice()).saturating_add(default_weight(
                known,
                &tree.default,
            ));
            nodes
                .saturating_mul(8)
                .saturating_add(cases)
                .saturating_add(32)
        }
        Def::Output(tree) => (tree.slots.len() as u64)
            .saturating_mul(32)
            .saturating_add(32),
    }
}

fn target_cells(known: &Table<Measure>, target: &TargetTree) -> u64
    ensures { result ≡ target_cells known.now target.now }
{
    match target {
        TargetTree::Number(_) => 1,
        TargetTree::Pointer(_) => 1,
        TargetTree::Named(name) => type_cells(known, name.text.as_slice()),
    }
}

fn param_cells(known: &Table<Measure>, param: &ParamTree) -> u64
    ensures { result ≡ param_cells known.now param.now }
{
    match param {
        ParamTree::Value(_, _) => 0,
        ParamTree::Mutable(target, _) => target_cells(known, target),
        ParamTree::Bytes { .. } => 0,
    }
}

fn head_cells(known: &Table<Measure>, head: &HeadTree) -> u64
    ensures { result ≡ capped (head_cells known.now head.now) }
{
    let params = head.params.as_slice();
    let mut total = 0u64;
    for param in params {
        total = total.saturating_add(param_cells(known, param));
    }
    total
}

/// The cells of a definition.
pub(crate) fn count_cells(known: &Table<Measure>, definition: &Def) -> u64
    ensures { result ≡ capped (count_cells known.now definition.now) }
{
    match definition {
        Def::Define(_) => 0,
        Def::Enum(_) => 0,
        Def::Alias(_) => 0,
        Def::Struct(tree) => head_cells(known, &tree.head),
        Def::Casetype(tree) => head_cells(known, &tree.head),
        Def::Output(_) => 0,
    }
}
