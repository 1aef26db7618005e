//! The fields of a struct, a case or `default`.

ghost use Rattle.std.specs.Prelude.{◌≡◌, ◌<◌, ◌++◌, IfOk, OnErr, OnOk, length};
ghost use Rattle.td_elab_rules.specs.Breach.{first_of};
ghost use Rattle.td_elab_rules.specs.Known.{with_field_name};
ghost use Rattle.td_elab_rules.specs.Sorts.{option_core};
ghost use Rattle.td_elab_rules.specs.ExprRules.{test_breaches};
ghost use Rattle.td_elab_rules.specs.Actions.{action_breaches, action_vars, action_core};
ghost use Rattle.td_elab_rules.specs.Types.{type_breaches, element_of};
ghost use Rattle.td_elab_rules.specs.Extents.{extent_breaches, extent_core};
ghost use Rattle.td_elab_rules.specs.Copies.{copied_breaches, copied_core};
ghost use Rattle.td_elab_rules.specs.Fields.{readable_of, with_field, field_name_breaches, field_breaches, field_taken, flat_of, fields_breaches, fields_taken, fields_core};
ghost use Rattle.td_elab_fields.specs.Narrow.{IsNarrow};
ghost use Rattle.td_elab_fields.specs.Scopes.{fields_scope};

use crate::arrays::{bit_width, extent};
use crate::bit_fields::Gathering;
use crate::copies::{are_bytes, copy};
use crate::flat::{add_field, check_name, check_refined, refinement_of};
use std::alloc::{AllocError, Global};
use td_ast::fields::FieldTree;
use td_core::actions::Action;
use td_core::expressions::CoreExpr;
use td_core::module::{CopyOut, Element, Extent, Field, NameId};
use td_elab_actions::actions::action;
use td_elab_actions::scopes::{Bindings, cut_back, take_field_name};
use td_elab_exprs::expressions::test;
use td_elab_exprs::findings::Findings;
use td_elab_rules::fields::{FlatField, Readable};
use td_elab_rules::known::Known;
use td_elab_types::types::element;
use td_names::names::Names;
use td_num::items::Items;

// Where a value is let go, each way through its variants is a way through the function. So what has many is let go by a call.

/// The type of a field and how often it stands there; their breaches and that of its name are noted. `AllocError`: out of
/// memory.
#[tactic(auto, using(td_elab_exprs::proofs::Steps::first_append))]
fn shape(
    alloc: Global,
    known: &Known,
    bindings: &Bindings,
    tree: &FieldTree,
    findings: &mut Findings,
) -> Result<(Element, Extent), AllocError>
    ensures element { IfOk result (λ s. s.0 ≡ element_of known.now bindings.now.scope tree.now.type_tree) }
    ensures extent { IfOk result (λ s. s.1 ≡ extent_core known.now bindings.now.scope (element_of known.now bindings.now.scope tree.now.type_tree) tree.now.extent) }
    ensures first { OnOk result (findings.new.first ≡ first_of findings.old.first
        (type_breaches known.now bindings.now.scope tree.now.type_tree ++ (field_name_breaches known.now bindings.now.taken tree.now
        ++ extent_breaches known.now bindings.now.scope tree.now.type_tree tree.now.extent))) }
{
    let element = element(alloc, known, &bindings.scope, &tree.type_tree, findings)?;
    check_name(known, &bindings.taken, tree, findings);
    let extent = extent(
        alloc,
        known,
        &bindings.scope,
        &tree.type_tree,
        &element,
        &tree.extent,
        findings,
    )?;
    Ok((element, extent))
}

/// The name of a field in scope and among the names that are given, and the number that it gives. `AllocError`: out of
/// memory.
fn bring(
    alloc: Global,
    known: &Known,
    bindings: &mut Bindings,
    tree: &FieldTree,
) -> Result<Option<Readable>, AllocError>
    ensures readable { IfOk result (λ r. r ≡ readable_of known.now bindings.old.scope tree.now) }
    ensures scope { OnOk result (bindings.new.scope ≡ with_field known.now bindings.old.scope tree.now) }
    ensures taken { OnOk result (bindings.new.taken ≡ with_field_name bindings.old.taken tree.now.name.text) }
{
    let readable = add_field(alloc, known, &mut bindings.scope, tree)?;
    take_field_name(alloc, &mut bindings.taken, tree.name.text.as_slice())?;
    Ok(readable)
}

/// The refinement and the action of a field that is in scope; their breaches are noted. `AllocError`: out of memory.
#[tactic(auto, using(td_elab_exprs::proofs::Steps::first_append))]
fn tests(
    alloc: Global,
    known: &Known,
    bindings: &mut Bindings,
    tree: &FieldTree,
    findings: &mut Findings,
) -> Result<(Option<CoreExpr>, Option<Action>), AllocError>
    ensures refinement { IfOk result (λ t. t.0 ≡ option_core known.now bindings.old.scope tree.now.refinement) }
    ensures action { IfOk result (λ t. t.1 ≡ action_core known.now bindings.old.scope tree.now.action) }
    ensures first { OnOk result (findings.new.first ≡ first_of findings.old.first
        (test_breaches known.now bindings.old.scope tree.now.refinement ++ action_breaches known.now bindings.old.taken bindings.old.scope tree.now.action)) }
    ensures taken { OnOk result (bindings.new.taken ≡ action_vars bindings.old.taken tree.now.action) }
    ensures scope { OnOk result (bindings.new.scope ≡ bindings.old.scope) }
{
    let refinement = test(alloc, known, &bindings.scope, &tree.refinement, findings)?;
    match action(alloc, known, bindings, &tree.action, findings) {
        Ok(action) => Ok((refinement, action)),
        Err(error) => {
            drop(refinement);
            Err(error)
        }
    }
}

/// What a field says behind its type and its size: the number that it gives, its refinement and its action, and where its bytes
/// are copied to.
#[derive(Drop)]
struct Rest {
    readable: Option<Readable>,
    tests: (Option<CoreExpr>, Option<Action>),
    copy: Option<CopyOut>,
}

/// What a field says behind its type and its size, where it is a byte-sized array of `UINT8`, or isn't; its breaches are noted. The
/// field is then in scope. `AllocError`: out of memory.
#[tactic(auto, using(td_elab_exprs::proofs::Steps::first_append))]
fn behind(
    alloc: Global,
    known: &Known,
    bindings: &mut Bindings,
    bytes: bool,
    tree: &FieldTree,
    findings: &mut Findings,
) -> Result<Rest, AllocError>
    ensures readable { IfOk result (λ b. b.readable ≡ readable_of known.now bindings.old.scope tree.now) }
    ensures refinement { IfOk result (λ b. b.tests.0 ≡ option_core known.now (with_field known.now bindings.old.scope tree.now) tree.now.refinement) }
    ensures action { IfOk result (λ b. b.tests.1 ≡ action_core known.now (with_field known.now bindings.old.scope tree.now) tree.now.action) }
    ensures copy { IfOk result (λ b. b.copy ≡ copied_core known.now (with_field known.now bindings.old.scope tree.now) bytes tree.now.action) }
    ensures first { OnOk result (findings.new.first ≡ first_of findings.old.first
        (test_breaches known.now (with_field known.now bindings.old.scope tree.now) tree.now.refinement
        ++ (action_breaches known.now (with_field_name bindings.old.taken tree.now.name.text) (with_field known.now bindings.old.scope tree.now) tree.now.action
        ++ copied_breaches known.now (with_field known.now bindings.old.scope tree.now) bytes tree.now.action))) }
    ensures taken { OnOk result (bindings.new.taken ≡ field_taken bindings.old.taken tree.now) }
    ensures scope { OnOk result (bindings.new.scope ≡ with_field known.now bindings.old.scope tree.now) }
{
    let readable = bring(alloc, known, bindings, tree)?;
    let tests = tests(alloc, known, bindings, tree, findings)?;
    match copy(known, &bindings.scope, bytes, &tree.action, findings) {
        Ok(copy) => Ok(Rest {
            readable,
            tests,
            copy,
        }),
        Err(error) => {
            drop(tests);
            Err(error)
        }
    }
}

/// A field, which is in scope after it; its breaches are noted. `AllocError`: out of memory.
#[tactic(auto, using(td_elab_exprs::proofs::Steps::first_append))]
fn field(
    alloc: Global,
    names: &Names,
    known: &Known,
    bindings: &mut Bindings,
    tree: &FieldTree,
    findings: &mut Findings,
) -> Result<FlatField, AllocError>
    ensures narrow { IfOk result (λ f. IsNarrow f) }
    ensures core { IfOk result (λ f. f ≡ flat_of names.now known.now bindings.old.scope tree.now) }
    ensures first { OnOk result (findings.new.first ≡ first_of findings.old.first (field_breaches known.now bindings.old.taken bindings.old.scope tree.now)) }
    ensures taken { OnOk result (bindings.new.taken ≡ field_taken bindings.old.taken tree.now) }
    ensures scope { OnOk result (bindings.new.scope ≡ with_field known.now bindings.old.scope tree.now) }
{
    let shape = shape(alloc, known, bindings, tree, findings)?;
    check_refined(known, &bindings.scope, tree, findings);
    let width = bit_width(known, &bindings.scope, &tree.type_tree, &tree.extent);
    let bytes = are_bytes(known, &bindings.scope, &tree.type_tree, &tree.extent);
    match behind(alloc, known, bindings, bytes, tree, findings) {
        Ok(behind) => {
            let (element, extent) = shape;
            let (refinement, action) = behind.tests;
            Ok(FlatField {
                element,
                extent,
                copy: behind.copy,
                width,
                name: NameId {
                    number: names.number(tree.name.text.as_slice()),
                },
                refinement: refinement_of(behind.readable, refinement),
                action,
                place: tree.name.span,
            })
        }
        Err(error) => {
            drop(shape);
            Err(error)
        }
    }
}

/// The fields, which are then in scope. `AllocError`: there is a field, and out of memory.
fn gathered(
    alloc: Global,
    names: &Names,
    known: &Known,
    bindings: &mut Bindings,
    trees: &[FieldTree],
    findings: &mut Findings,
) -> Result<Items<Field>, AllocError>
    ensures core { IfOk result (λ fs. fs ≡ fields_core names.now known.now bindings.old.scope trees.now) }
    ensures first { OnOk result (findings.new.first ≡ first_of findings.old.first (fields_breaches known.now bindings.old.taken bindings.old.scope trees.now)) }
    ensures taken { OnOk result (bindings.new.taken ≡ fields_taken bindings.old.taken trees.now) }
    ensures scope { OnOk result (bindings.new.scope ≡ fields_scope known.now bindings.old.scope trees.now) }
    ensures memory { OnErr result (0 < length trees.now) }
{
    let mut gathering = Gathering::new(alloc);
    for tree in trees {
        let flat = field(alloc, names, known, bindings, tree, findings)?;
        gathering.gather(alloc, flat)?;
    }
    gathering.close()?;
    Ok(gathering.fields)
}

/// The fields of a struct, a case or `default`; their breaches are noted, and their names are given. The scope is then
/// as before. `AllocError`: there is a field, and out of memory.
pub fn fields(
    alloc: Global,
    names: &Names,
    known: &Known,
    bindings: &mut Bindings,
    trees: &[FieldTree],
    findings: &mut Findings,
) -> Result<Items<Field>, AllocError>
    ensures core { IfOk result (λ fs. fs ≡ fields_core names.now known.now bindings.old.scope trees.now) }
    ensures first { OnOk result (findings.new.first ≡ first_of findings.old.first (fields_breaches known.now bindings.old.taken bindings.old.scope trees.now)) }
    ensures taken { OnOk result (bindings.new.taken ≡ fields_taken bindings.old.taken trees.now) }
    ensures scope { OnOk result (bindings.new.scope ≡ bindings.old.scope) }
    ensures memory { OnErr result (0 < length trees.now) }
{
    let (locals, levels) = (bindings.scope.locals.len(), bindings.scope.levels);
    let fields = gathered(alloc, names, known, bindings, trees, findings)?;
    cut_back(&mut bindings.scope, locals, levels);
    Ok(fields)
}
