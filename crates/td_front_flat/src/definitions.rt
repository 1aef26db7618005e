//! Definitions as they stand in the whole text.

ghost use Rattle.std.specs.Prelude.{◌≡◌, [], map, IfOk, OnOk};
ghost use Rattle.td_front_flat.specs.Definitions as specs;
ghost use Rattle.td_front_flat.specs.Expressions as expressions;

use crate::expressions::flat_tree;
use crate::fields::flat_fields;
use crate::heads::{flat_constant, flat_head, flat_plain};
use crate::names::{copied_name, defined_name, given_name};
use crate::own::Own;
use std::alloc::{AllocError, Global};
use td_ast::definitions::{
    AliasTree, CaseTree, CasetypeTree, Def, DefineTree, EnumTree, ItemTree, OutputTree, SlotKind,
    SlotTree, StructTree,
};
use td_ast::expressions::Expr;
use td_ast::fields::FieldTree;
use td_ast::names::{ConstTree, Name};
use td_ast::parameters::{HeadTree, ParamTree};
use td_names::names::Names;
use td_num::items::Items;

fn flat_value(
    alloc: Global,
    own: &Own,
    value: &Option<ConstTree>,
) -> Result<Option<ConstTree>, AllocError>
    ensures { IfOk result (λ v. v ≡ specs.flat_value own.now value.now) }
{
    match value {
        None => Ok(None),
        Some(constant) => {
            let nothing = Names::new(alloc);
            let flat = flat_constant(alloc, own, &nothing, constant)?;
            Ok(Some(flat))
        }
    }
}

fn flat_item(alloc: Global, own: &Own, item: &ItemTree) -> Result<ItemTree, AllocError>
    ensures { IfOk result (λ i. i ≡ specs.flat_item own.now item.now) }
{
    let name = defined_name(alloc, own, &item.name)?;
    let value = flat_value(alloc, own, &item.value)?;
    Ok(ItemTree { name, value })
}

fn flat_items(alloc: Global, own: &Own, items: &[ItemTree]) -> Result<Items<ItemTree>, AllocError>
    ensures { IfOk result (λ is. is ≡ map (specs.flat_item own.now) items.now) }
{
    let mut flat = Items::new(alloc);
    for item in items {
        flat.push(flat_item(alloc, own, item)?)?;
    }
    Ok(flat)
}

fn flat_enum(alloc: Global, own: &Own, tree: &EnumTree) -> Result<Def, AllocError>
    ensures { IfOk result (λ d. d ≡ specs.flat_definition own.now (Def.Enum tree.now)) }
{
    let name = defined_name(alloc, own, &tree.name)?;
    let items = flat_items(alloc, own, tree.items.as_slice())?;
    Ok(Def::Enum(EnumTree {
        base: tree.base,
        name,
        items,
    }))
}

fn flat_define(alloc: Global, own: &Own, tree: &DefineTree) -> Result<Def, AllocError>
    ensures { IfOk result (λ d. d ≡ specs.flat_definition own.now (Def.Define tree.now)) }
{
    let name = defined_name(alloc, own, &tree.name)?;
    Ok(Def::Define(DefineTree {
        name,
        value: tree.value,
    }))
}

fn flat_alias(alloc: Global, own: &Own, tree: &AliasTree) -> Result<Def, AllocError>
    ensures { IfOk result (λ d. d ≡ specs.flat_definition own.now (Def.Alias tree.now)) }
{
    let name = defined_name(alloc, own, &tree.name)?;
    let nothing = Names::new(alloc);
    let target = flat_plain(alloc, own, &nothing, &tree.target)?;
    Ok(Def::Alias(AliasTree { target, name }))
}

// Where a value is let go, each way through its variants is a way through the function. So what has the most comes last, or is let
// go by a call.

// A struct but for its names.
#[derive(Drop)]
struct Inner {
    head: HeadTree,
    fields: Items<FieldTree>,
}

fn struct_inner(alloc: Global, own: &Own, tree: &StructTree) -> Result<Inner, AllocError>
    ensures head { IfOk result (λ i. i.head ≡ specs.flat_head own.now tree.now.head) }
    ensures fields { IfOk result (λ i. i.fields ≡ specs.flat_fields own.now tree.now.head.params (specs.head_scope tree.now.head) tree.now.fields) }
{
    let mut scope = Names::new(alloc);
    let head = flat_head(alloc, own, &mut scope, &tree.head)?;
    let params = tree.head.params.as_slice();
    match flat_fields(alloc, own, params, &mut scope, tree.fields.as_slice()) {
        Ok(fields) => Ok(Inner { head, fields }),
        Err(error) => {
            drop(head);
            Err(error)
        }
    }
}

fn flat_struct(alloc: Global, own: &Own, tree: &StructTree) -> Result<Def, AllocError>
    ensures { IfOk result (λ d. d ≡ specs.flat_definition own.now (Def.Struct tree.now)) }
{
    let name = defined_name(alloc, own, &tree.name)?;
    let tag = copied_name(alloc, &tree.tag)?;
    let inner = struct_inner(alloc, own, tree)?;
    Ok(Def::Struct(StructTree {
        entry: tree.entry,
        tag,
        head: inner.head,
        fields: inner.fields,
        name,
    }))
}

fn flat_case(
    alloc: Global,
    own: &Own,
    params: &[ParamTree],
    scope: &mut Names,
    tree: &CaseTree,
) -> Result<CaseTree, AllocError>
    ensures flat { IfOk result (λ c. c ≡ specs.flat_case own.now params.now scope.old tree.now) }
    ensures scope { OnOk result (scope.new ≡ scope.old) }
{
    let fields = flat_fields(alloc, own, params, scope, tree.fields.as_slice())?;
    let constant = flat_constant(alloc, own, scope, &tree.constant)?;
    Ok(CaseTree { constant, fields })
}

fn flat_cases(
    alloc: Global,
    own: &Own,
    params: &[ParamTree],
    scope: &mut Names,
    cases: &[CaseTree],
) -> Result<Items<CaseTree>, AllocError>
    ensures flat { IfOk result (λ cs. cs ≡ map (specs.flat_case own.now params.now scope.old) cases.now) }
    ensures scope { OnOk result (scope.new ≡ scope.old) }
{
    let mut flat = Items::new(alloc);
    for one in cases {
        flat.push(flat_case(alloc, own, params, scope, one)?)?;
    }
    Ok(flat)
}

fn flat_default(
    alloc: Global,
    own: &Own,
    params: &[ParamTree],
    scope: &mut Names,
    default: &Option<Items<FieldTree>>,
) -> Result<Option<Items<FieldTree>>, AllocError>
    ensures flat { IfOk result (λ fs. fs ≡ specs.flat_default own.now params.now scope.old default.now) }
{
    match default {
        None => Ok(None),
        Some(fields) => {
            let flat = flat_fields(alloc, own, params, scope, fields.as_slice())?;
            Ok(Some(flat))
        }
    }
}

// What stands before the cases of a casetype.
#[derive(Drop)]
struct Front {
    tag: Name,
    head: HeadTree,
    subject: Expr,
}

// Its cases.
#[derive(Drop)]
struct Cases {
    cases: Items<CaseTree>,
    default: Option<Items<FieldTree>>,
}

fn flat_front(
    alloc: Global,
    own: &Own,
    scope: &mut Names,
    tree: &CasetypeTree,
) -> Result<Front, AllocError>
    requires { scope.old ≡ [] }
    ensures tag { IfOk result (λ f. f.tag ≡ tree.now.tag) }
    ensures head { IfOk result (λ f. f.head ≡ specs.flat_head own.now tree.now.head) }
    ensures subject { IfOk result (λ f. f.subject ≡ expressions.flat_tree own.now (specs.head_scope tree.now.head) tree.now.subject) }
    ensures scope { OnOk result (scope.new ≡ specs.head_scope tree.now.head) }
{
    let tag = copied_name(alloc, &tree.tag)?;
    let head = flat_head(alloc, own, scope, &tree.head)?;
    match flat_tree(alloc, own, scope, &tree.subject) {
        Ok(subject) => Ok(Front { tag, head, subject }),
        Err(error) => {
            drop(head);
            Err(error)
        }
    }
}

fn all_cases(
    alloc: Global,
    own: &Own,
    scope: &mut Names,
    tree: &CasetypeTree,
) -> Result<Cases, AllocError>
    ensures cases { IfOk result (λ c. c.cases ≡ map (specs.flat_case own.now tree.now.head.params scope.old) tree.now.cases) }
    ensures default { IfOk result (λ c. c.default ≡ specs.flat_default own.now tree.now.head.params scope.old tree.now.default) }
{
    let params = tree.head.params.as_slice();
    let cases = flat_cases(alloc, own, params, scope, tree.cases.as_slice())?;
    let default = flat_default(alloc, own, params, scope, &tree.default)?;
    Ok(Cases { cases, default })
}

fn flat_casetype(alloc: Global, own: &Own, tree: &CasetypeTree) -> Result<Def, AllocError>
    ensures { IfOk result (λ d. d ≡ specs.flat_definition own.now (Def.Casetype tree.now)) }
{
    let name = defined_name(alloc, own, &tree.name)?;
    let mut scope = Names::new(alloc);
    let front = flat_front(alloc, own, &mut scope, tree)?;
    match all_cases(alloc, own, &mut scope, tree) {
        Ok(body) => Ok(Def::Casetype(CasetypeTree {
            entry: tree.entry,
            tag: front.tag,
            head: front.head,
            subject: front.subject,
            cases: body.cases,
            default: body.default,
            name,
        })),
        Err(error) => {
            drop(front);
            Err(error)
        }
    }
}

fn copied_kind(kind: &SlotKind) -> SlotKind
    ensures { result ≡ kind.now }
{
    match kind {
        SlotKind::Number(number) => SlotKind::Number(*number),
        SlotKind::Pointer(at) => SlotKind::Pointer(*at),
    }
}

fn flat_slot(alloc: Global, own: &Own, slot: &SlotTree) -> Result<SlotTree, AllocError>
    ensures { IfOk result (λ x. x ≡ specs.flat_slot own.now slot.now) }
{
    let name = given_name(alloc, own, &slot.name)?;
    Ok(SlotTree {
        kind: copied_kind(&slot.kind),
        name,
    })
}

fn flat_slots(alloc: Global, own: &Own, slots: &[SlotTree]) -> Result<Items<SlotTree>, AllocError>
    ensures { IfOk result (λ xs. xs ≡ map (specs.flat_slot own.now) slots.now) }
{
    let mut flat = Items::new(alloc);
    for slot in slots {
        flat.push(flat_slot(alloc, own, slot)?)?;
    }
    Ok(flat)
}

fn flat_output(alloc: Global, own: &Own, tree: &OutputTree) -> Result<Def, AllocError>
    ensures { IfOk result (λ d. d ≡ specs.flat_definition own.now (Def.Output tree.now)) }
{
    let tag = copied_name(alloc, &tree.tag)?;
    let slots = flat_slots(alloc, own, tree.slots.as_slice())?;
    let name = defined_name(alloc, own, &tree.name)?;
    Ok(Def::Output(OutputTree { tag, slots, name }))
}

/// A definition of a part as it stands in the whole text. `AllocError`: out of memory.
pub(crate) fn flat_definition(alloc: Global, own: &Own, definition: &Def) -> Result<Def, AllocError>
    ensures { IfOk result (λ d. d ≡ specs.flat_definition own.now definition.now) }
{
    match definition {
        Def::Define(tree) => flat_define(alloc, own, tree),
        Def::Enum(tree) => flat_enum(alloc, own, tree),
        Def::Alias(tree) => flat_alias(alloc, own, tree),
        Def::Struct(tree) => flat_struct(alloc, own, tree),
        Def::Casetype(tree) => flat_casetype(alloc, own, tree),
        Def::Output(tree) => flat_output(alloc, own, tree),
    }
}
