//! Definitions.

ghost use Rattle.std.specs.Prelude.{◌≡◌, ◌<◌, ◌++◌, IfOk, OnOk, OnErr, length};
ghost use Rattle.td_core.specs.declared.module.Body.TheVariants.{Struct as StructBody};
ghost use Rattle.td_elab_defs.specs.Slots.{record_parts};
ghost use Rattle.td_elab_rules.specs.Breach.{first_of};
ghost use Rattle.td_elab_rules.specs.Constants.{global_breaches};
ghost use Rattle.td_names.specs.Names.{number_of};
ghost use Rattle.td_elab_rules.specs.Known.{nothing_known};
ghost use Rattle.td_elab_rules.specs.Sorts.{option_core};
ghost use Rattle.td_elab_rules.specs.ExprRules.{test_breaches};
ghost use Rattle.td_elab_rules.specs.Fields.{fields_breaches, fields_taken, fields_core};
ghost use Rattle.td_elab_rules.specs.Records.{after_record, record_breaches};
ghost use Rattle.td_elab_rules.specs.Casetypes.{switch_breaches, switch_taken, switch_core};
ghost use Rattle.td_elab_rules.specs.Definitions.{with_names, entry_more, with_type, struct_scope, struct_breaches, after_struct, casetype_breaches, after_casetype, definition_breaches, after, known_after};
ghost use Rattle.td_elab.specs.Heads.{announced, with_definition};
ghost use Rattle.td_elab.specs.Firsts.{breaches_each, earlier, first_among};

use crate::casetypes::switch;
use std::alloc::{AllocError, Global};
use td_ast::definitions::{CasetypeTree, Def, OutputTree, StructTree};
use td_ast::names::Name;
use td_core::expressions::CoreExpr;
use td_core::module::{Body, Buffer, Cell, NameId, Param, TypeDef};
use td_elab_actions::scopes::Bindings;
use td_elab_defs::aliases::alias;
use td_elab_defs::constants::{check_global, check_literal, declare, define};
use td_elab_defs::enums::enumerate;
use td_elab_defs::numbers::next_place;
use td_elab_defs::parameters::head;
use td_elab_defs::records::record;
use td_elab_defs::scopes::nothing_known;
use td_elab_defs::slots::{SlotCell, slot_cells};
use td_elab_exprs::expressions::test;
use td_elab_exprs::findings::Findings;
use td_elab_fields::fields::fields;
use td_elab_fields::leading::leading_size;
use td_elab_rules::known::{Known, Meaning, Parameter};
use td_elab_rules::parameters::Head;
use td_kinds::casetypes::body_kind;
use td_names::names::Names;
use td_num::items::Items;

// Where a value is let go, each way through its variants is a way through the function. So what has many is let go by a call.

/// More names, beside others. `AllocError`: out of memory.
fn see_names(alloc: Global, names: &mut Names, given: &Names) -> Result<(), AllocError>
    ensures { OnOk result (names.new ≡ with_names names.old given.now) }
{
    let texts = given.texts(alloc)?;
    for text in texts.as_slice() {
        names.see(alloc, text.as_slice())?;
    }
    Ok(())
}

/// One more entry point, where it is one. `AllocError`: out of memory.
fn add_entry(entries: &mut Items<u32>, is_entry: bool, place: u32) -> Result<(), AllocError>
    ensures { OnOk result (entries.new ≡ entry_more is_entry place entries.old) }
{
    if is_entry {
        entries.push(place)?;
    }
    Ok(())
}

/// What is known of a struct or casetype of that name, which gave these names, before the definition itself is there.
/// `AllocError`: out of memory.
fn announce(
    alloc: Global,
    known: &mut Known,
    is_entry: bool,
    name: &[u8],
    given: &Names,
) -> Result<(), AllocError>
    ensures { OnOk result (known.new ≡ announced known.old is_entry name.now given.now) }
{
    let count = next_place(known.count as usize + 1)?;
    let place = next_place(known.definitions.len())?;
    declare(alloc, known, name, Meaning::Type(place))?;
    see_names(alloc, &mut known.used, given)?;
    add_entry(&mut known.entries, is_entry, place)?;
    known.count = count;
    Ok(())
}

/// What is known after a struct or casetype of that name, with these parameters, which gave these names. `AllocError`:
/// out of memory.
fn add_type(
    alloc: Global,
    known: &mut Known,
    is_entry: bool,
    name: &[u8],
    parameters: Items<Parameter>,
    given: &Names,
    definition: TypeDef,
) -> Result<(), AllocError>
    ensures { OnOk result (known.new ≡ with_type known.old is_entry name.now parameters given.now definition) }
{
    match announce(alloc, known, is_entry, name, given) {
        Ok(()) => push_type(known, parameters, definition),
        Err(error) => {
            drop(definition);
            Err(error)
        }
    }
}

/// The struct or casetype itself, with its parameters and its kind. `AllocError`: out of memory.
fn push_type(
    known: &mut Known,
    parameters: Items<Parameter>,
    definition: TypeDef,
) -> Result<(), AllocError>
    ensures { OnOk result (known.new ≡ with_definition known.old parameters definition) }
{
    let kind = body_kind(known.kinds.as_slice(), &definition.body);
    known.definitions.push(definition)?;
    known.kinds.push(kind)?;
    known.signatures.push(parameters)
}

/// What a head says to those who use the definition.
#[derive(Drop)]
struct Signature {
    parameters: Items<Parameter>,
    params: Items<Param>,
    cells: Items<Cell>,
    buffers: Items<Buffer>,
}

/// What a head says to those who use the definition, and the bindings in which its body stands.
fn parts_of(head: Head) -> (Signature, Bindings)
    ensures signature { result.0 ≡ record { parameters = head.parameters; params = head.params; cells = head.cells; buffers = head.buffers } }
    ensures bindings { result.1 ≡ record { scope = head.scope; taken = head.taken } }
{
    let signature = Signature {
        parameters: head.parameters,
        params: head.params,
        cells: head.cells,
        buffers: head.buffers,
    };
    let bindings = Bindings {
        scope: head.scope,
        taken: head.taken,
    };
    (signature, bindings)
}

/// `where` and the body of a struct or casetype.
#[derive(Drop)]
struct Inner {
    guard: Option<CoreExpr>,
    body: Body,
}

/// What is known after a struct or casetype of that name, by its head and what it consists of, which gave these names; that its name is
/// taken is noted. `AllocError`: out of memory.
fn add_definition(
    alloc: Global,
    names: &Names,
    known: &mut Known,
    is_entry: bool,
    name: &Name,
    signature: Signature,
    given: &Names,
    inner: Inner,
    findings: &mut Findings,
) -> Result<(), AllocError>
    ensures known { OnOk result (known.new ≡ with_type known.old is_entry name.now.text signature.parameters given.now (record { name = record { number = number_of names.now name.now.text }; params = signature.params; cells = signature.cells; buffers = signature.buffers; guard = inner.guard; body = inner.body })) }
    ensures first { findings.new.first ≡ first_of findings.old.first (global_breaches known.old name.now) }
{
    check_global(known, name, findings);
    let text = name.text.as_slice();
    let definition = TypeDef {
        name: NameId {
            number: names.number(text),
        },
        params: signature.params,
        cells: signature.cells,
        buffers: signature.buffers,
        guard: inner.guard,
        body: inner.body,
    };
    add_type(
        alloc,
        known,
        is_entry,
        text,
        signature.parameters,
        given,
        definition,
    )
}

/// `where` and the fields of a struct, in the scope of its head; their breaches are noted. `AllocError`: out of memory.
#[tactic(auto, using(td_elab_exprs::proofs::Steps::first_append))]
fn struct_inner(
    alloc: Global,
    names: &Names,
    known: &Known,
    bindings: &mut Bindings,
    tree: &StructTree,
    findings: &mut Findings,
) -> Result<Inner, AllocError>
    ensures guard { IfOk result (λ i. i.guard ≡ option_core known.now (struct_scope known.now bindings.old.scope tree.now.fields) tree.now.head.condition) }
    ensures body { IfOk result (λ i. i.body ≡ StructBody (fields_core names.now known.now (struct_scope known.now bindings.old.scope tree.now.fields) tree.now.fields)) }
    ensures first { OnOk result (findings.new.first ≡ first_of findings.old.first (test_breaches known.now (struct_scope known.now bindings.old.scope tree.now.fields) tree.now.head.condition ++ fields_breaches known.now bindings.old.taken (struct_scope known.now bindings.old.scope tree.now.fields) tree.now.fields)) }
    ensures taken { OnOk result (bindings.new.taken ≡ fields_taken bindings.old.taken tree.now.fields) }
{
    let trees = tree.fields.as_slice();
    let this = leading_size(alloc, known, &mut bindings.scope, trees)?;
    bindings.scope.this = Some(this);
    let guard = test(
        alloc,
        known,
        &bindings.scope,
        &tree.head.condition,
        findings,
    )?;
    match fields(alloc, names, known, bindings, trees, findings) {
        Ok(fields) => Ok(Inner {
            guard,
            body: Body::Struct(fields),
        }),
        Err(error) => {
            drop(guard);
            Err(error)
        }
    }
}

/// What is known after a struct. `AllocError`: out of memory.
#[tactic(auto, using(td_elab_exprs::proofs::Steps::first_append))]
fn structure(
    alloc: Global,
    names: &Names,
    known: &mut Known,
    slots: &[Items<SlotCell>],
    tree: &StructTree,
    findings: &mut Findings,
) -> Result<(), AllocError>
    requires { slots.now ≡ record_parts names.now known.old }
    ensures known { OnOk result (known.new ≡ after_struct names.now known.old tree.now) }
    ensures first { OnOk result (findings.new.first ≡ first_of findings.old.first (struct_breaches names.now known.old tree.now)) }
{
    let head = head(
        alloc,
        names,
        known,
        slots,
        tree.head.params.as_slice(),
        findings,
    )?;
    let (signature, mut bindings) = parts_of(head);
    match struct_inner(alloc, names, known, &mut bindings, tree, findings) {
        Ok(inner) => {
            let added = add_definition(
                alloc,
                names,
                known,
                tree.entry,
                &tree.name,
                signature,
                &bindings.taken.all,
                inner,
                findings,
            );
            drop(bindings);
            added
        }
        Err(error) => {
            drop(signature);
            drop(bindings);
            Err(error)
        }
    }
}

/// `where` and the body of a casetype, in the scope of its head; their breaches are noted. `AllocError`: out of memory.
#[tactic(auto, using(td_elab_exprs::proofs::Steps::first_append))]
fn casetype_inner(
    alloc: Global,
    names: &Names,
    known: &Known,
    bindings: &mut Bindings,
    tree: &CasetypeTree,
    findings: &mut Findings,
) -> Result<Inner, AllocError>
    ensures guard { IfOk result (λ i. i.guard ≡ option_core known.now bindings.old.scope tree.now.head.condition) }
    ensures body { IfOk result (λ i. i.body ≡ switch_core names.now known.now bindings.old.scope tree.now) }
    ensures first { OnOk result (findings.new.first ≡ first_of findings.old.first (test_breaches known.now bindings.old.scope tree.now.head.condition ++ switch_breaches known.now bindings.old.taken bindings.old.scope tree.now)) }
    ensures taken { OnOk result (bindings.new.taken ≡ switch_taken bindings.old.taken tree.now) }
{
    let guard = test(
        alloc,
        known,
        &bindings.scope,
        &tree.head.condition,
        findings,
    )?;
    match switch(alloc, names, known, bindings, tree, findings) {
        Ok(body) => Ok(Inner { guard, body }),
        Err(error) => {
            drop(guard);
            Err(error)
        }
    }
}

/// What is known after a casetype. `AllocError`: out of memory.
#[tactic(auto, using(td_elab_exprs::proofs::Steps::first_append))]
fn casetype(
    alloc: Global,
    names: &Names,
    known: &mut Known,
    slots: &[Items<SlotCell>],
    tree: &CasetypeTree,
    findings: &mut Findings,
) -> Result<(), AllocError>
    requires { slots.now ≡ record_parts names.now known.old }
    ensures known { OnOk result (known.new ≡ after_casetype names.now known.old tree.now) }
    ensures first { OnOk result (findings.new.first ≡ first_of findings.old.first (casetype_breaches names.now known.old tree.now)) }
{
    let head = head(
        alloc,
        names,
        known,
        slots,
        tree.head.params.as_slice(),
        findings,
    )?;
    let (signature, mut bindings) = parts_of(head);
    match casetype_inner(alloc, names, known, &mut bindings, tree, findings) {
        Ok(inner) => {
            let added = add_definition(
                alloc,
                names,
                known,
                tree.entry,
                &tree.name,
                signature,
                &bindings.taken.all,
                inner,
                findings,
            );
            drop(bindings);
            added
        }
        Err(error) => {
            drop(signature);
            drop(bindings);
            Err(error)
        }
    }
}

/// What is known after an output record, the cells for its slots too; its breaches are noted. `AllocError`: out of memory.
fn output(
    alloc: Global,
    names: &Names,
    known: &mut Known,
    slots: &mut Items<Items<SlotCell>>,
    tree: &OutputTree,
    findings: &mut Findings,
) -> Result<(), AllocError>
    requires { slots.old ≡ record_parts names.now known.old }
    ensures known { OnOk result (known.new ≡ after_record known.old tree.now) }
    ensures first { OnOk result (findings.new.first ≡ first_of findings.old.first (record_breaches known.old tree.now)) }
    ensures slots { OnOk result (slots.new ≡ record_parts names.now known.new) }
{
    record(alloc, known, tree, findings)?;
    slots.push(slot_cells(alloc, names, tree.slots.as_slice())?)
}

/// What is known after a definition, the cells for the slots of each record too; its breaches are noted. `AllocError`: out of
/// memory.
fn definition(
    alloc: Global,
    names: &Names,
    known: &mut Known,
    slots: &mut Items<Items<SlotCell>>,
    tree: &Def,
    findings: &mut Findings,
) -> Result<(), AllocError>
    requires { slots.old ≡ record_parts names.now known.old }
    ensures slots { OnOk result (slots.new ≡ record_parts names.now known.new) }
    ensures known { OnOk result (known.new ≡ after names.now known.old tree.now) }
    ensures first { OnOk result (findings.new.first ≡ first_of findings.old.first (definition_breaches names.now known.old tree.now)) }
{
    match tree {
        Def::Define(d) => {
            check_literal(known, &d.name, findings);
            define(alloc, known, d)
        }
        Def::Enum(d) => enumerate(alloc, known, d, findings),
        Def::Alias(d) => alias(alloc, known, d, findings),
        Def::Struct(d) => structure(alloc, names, known, slots.as_slice(), d, findings),
        Def::Casetype(d) => casetype(alloc, names, known, slots.as_slice(), d, findings),
        Def::Output(d) => output(alloc, names, known, slots, d, findings),
    }
}

/// What was found in an earlier definition stays, and else there is what was found in this one.
fn keep_earlier(findings: &mut Findings, own: Findings)
    ensures { findings.new.first ≡ earlier findings.old.first own.first }
{
    if findings.first.is_none() {
        findings.first = own.first;
    }
}

/// What is known after all definitions; of their breaches the first of the first definition that has one is noted.
/// `AllocError`: there is one, and out of memory.
pub fn definitions(
    alloc: Global,
    names: &Names,
    trees: &[Def],
    findings: &mut Findings,
) -> Result<Known, AllocError>
    ensures known { IfOk result (λ k. k ≡ known_after names.now nothing_known trees.now) }
    ensures first { OnOk result (findings.new.first ≡ first_among findings.old.first (breaches_each names.now nothing_known trees.now)) }
    ensures memory { OnErr result (0 < length trees.now) }
{
    let mut known = nothing_known(alloc);
    let mut slots = Items::new(alloc);
    for tree in trees {
        let mut own = Findings::new();
        definition(alloc, names, &mut known, &mut slots, tree, &mut own)?;
        keep_earlier(findings, own);
    }
    Ok(known)
}
