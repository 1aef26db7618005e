//! Casetypes.

ghost use Rattle.std.specs.Prelude.{◌≡◌, ◌++◌, [], IfOk, OnOk};
ghost use Rattle.td_elab_rules.specs.Breach.{first_of};
ghost use Rattle.td_elab_rules.specs.Known.{next_case};
ghost use Rattle.td_elab_rules.specs.Constants.{is_value_among};
ghost use Rattle.td_elab_rules.specs.Casetypes.{is_past_switch, case_breaches, case_taken, cases_breaches, cases_taken, default_breaches, default_taken, switch_breaches, switch_taken, cases_core, default_core, switch_core};
ghost use Rattle.td_elab_rules.specs.Fields.{fields_breaches, fields_core};

use std::alloc::{AllocError, Global};
use td_ast::definitions::{CaseTree, CasetypeTree};
use td_ast::fields::FieldTree;
use td_ast::names::ConstTree;
use td_core::expressions::Scalar;
use td_core::module::{Body, Case, Field};
use td_elab_actions::scopes::Bindings;
use td_elab_defs::constants::{
    check_constant, constant_span, constant_value, is_past, number_or_zero,
};
use td_elab_defs::numbers::{add_value, is_value_among};
use td_elab_exprs::expressions::number;
use td_elab_exprs::findings::Findings;
use td_elab_exprs::sorts::type_alone;
use td_elab_fields::fields::fields;
use td_elab_rules::breach::Rule;
use td_elab_rules::known::{Known, Scope};
use td_names::names::Names;
use td_names::numbers::Numbers;
use td_num::items::Items;

/// Whether a value is past the type of the switch.
fn is_past_switch(switch: Option<Scalar>, value: Option<u64>) -> bool
    ensures { result ≡ is_past_switch switch value }
{
    match switch {
        Some(scalar) => is_past(scalar, value),
        None => false,
    }
}

/// Notes what the value of a case breaks, after values that were given before.
#[tactic(auto, using(td_elab_exprs::proofs::Steps::first_append))]
fn check_case(
    known: &Known,
    scope: &Scope,
    switch: Option<Scalar>,
    before: &Numbers,
    tree: &ConstTree,
    findings: &mut Findings,
)
    ensures { findings.new.first ≡ first_of findings.old.first (case_breaches known.now scope.now switch before.now tree.now) }
{
    check_constant(known, scope, tree, findings);
    let value = constant_value(known, scope, tree);
    let place = constant_span(tree);
    findings.note_if(is_value_among(before, value), Rule::Twice, place);
    findings.note_if(is_past_switch(switch, value), Rule::Narrowing, place);
}

/// The fields of a case or of `default`, which may have the names that fields of other cases have. `AllocError`: out of
/// memory.
fn case_fields(
    alloc: Global,
    names: &Names,
    known: &Known,
    bindings: &mut Bindings,
    trees: &[FieldTree],
    findings: &mut Findings,
) -> Result<Items<Field>, AllocError>
    ensures core { IfOk result (λ fs. fs ≡ fields_core names.now known.now bindings.old.scope trees.now) }
    ensures first { OnOk result (findings.new.first ≡ first_of findings.old.first (fields_breaches known.now (next_case bindings.old.taken) bindings.old.scope trees.now)) }
    ensures taken { OnOk result (bindings.new.taken ≡ case_taken bindings.old.taken trees.now) }
    ensures scope { OnOk result (bindings.new.scope ≡ bindings.old.scope) }
{
    bindings.taken.fields = Names::new(alloc);
    fields(alloc, names, known, bindings, trees, findings)
}

/// The cases; their breaches are noted. `AllocError`: out of memory.
fn cases(
    alloc: Global,
    names: &Names,
    known: &Known,
    bindings: &mut Bindings,
    switch: Option<Scalar>,
    trees: &[CaseTree],
    findings: &mut Findings,
) -> Result<Items<Case>, AllocError>
    ensures core { IfOk result (λ cs. cs ≡ cases_core names.now known.now bindings.old.scope trees.now) }
    ensures first { OnOk result (findings.new.first ≡ first_of findings.old.first (cases_breaches known.now bindings.old.taken bindings.old.scope switch [] trees.now)) }
    ensures taken { OnOk result (bindings.new.taken ≡ cases_taken bindings.old.taken trees.now) }
    ensures scope { OnOk result (bindings.new.scope ≡ bindings.old.scope) }
{
    let mut before = Numbers::new(alloc);
    let mut cases = Items::new(alloc);
    for tree in trees {
        check_case(
            known,
            &bindings.scope,
            switch,
            &before,
            &tree.constant,
            findings,
        );
        let value = constant_value(known, &bindings.scope, &tree.constant);
        let inner = tree.fields.as_slice();
        let fields = case_fields(alloc, names, known, bindings, inner, findings)?;
        add_value(&mut before, value)?;
        cases.push(Case {
            value: number_or_zero(value),
            fields,
        })?;
    }
    Ok(cases)
}

/// The fields of `default`; their breaches are noted. `AllocError`: out of memory.
fn default_fields(
    alloc: Global,
    names: &Names,
    known: &Known,
    bindings: &mut Bindings,
    tree: &Option<Items<FieldTree>>,
    findings: &mut Findings,
) -> Result<Option<Items<Field>>, AllocError>
    ensures core { IfOk result (λ fs. fs ≡ default_core names.now known.now bindings.old.scope tree.now) }
    ensures first { OnOk result (findings.new.first ≡ first_of findings.old.first (default_breaches known.now bindings.old.taken bindings.old.scope tree.now)) }
    ensures taken { OnOk result (bindings.new.taken ≡ default_taken bindings.old.taken tree.now) }
    ensures scope { OnOk result (bindings.new.scope ≡ bindings.old.scope) }
{
    match tree {
        None => Ok(None),
        Some(trees) => {
            let trees = trees.as_slice();
            let fields = case_fields(alloc, names, known, bindings, trees, findings)?;
            Ok(Some(fields))
        }
    }
}

/// The cases, and the fields of `default`; their breaches are noted. `AllocError`: out of memory.
#[tactic(auto, using(td_elab_exprs::proofs::Steps::first_append))]
fn all_cases(
    alloc: Global,
    names: &Names,
    known: &Known,
    bindings: &mut Bindings,
    switch: Option<Scalar>,
    tree: &CasetypeTree,
    findings: &mut Findings,
) -> Result<(Items<Case>, Option<Items<Field>>), AllocError>
    ensures core { IfOk result (λ c. (c.0 ≡ cases_core names.now known.now bindings.old.scope tree.now.cases) × (c.1 ≡ default_core names.now known.now bindings.old.scope tree.now.default)) }
    ensures first { OnOk result (findings.new.first ≡ first_of findings.old.first
        (cases_breaches known.now bindings.old.taken bindings.old.scope switch [] tree.now.cases
        ++ default_breaches known.now (cases_taken bindings.old.taken tree.now.cases) bindings.old.scope tree.now.default)) }
    ensures taken { OnOk result (bindings.new.taken ≡ switch_taken bindings.old.taken tree.now) }
    ensures scope { OnOk result (bindings.new.scope ≡ bindings.old.scope) }
{
    let trees = tree.cases.as_slice();
    let cases = cases(alloc, names, known, bindings, switch, trees, findings)?;
    let default = default_fields(alloc, names, known, bindings, &tree.default, findings)?;
    Ok((cases, default))
}

/// The body of a casetype; its breaches are noted. `AllocError`: out of memory.
#[tactic(auto, using(td_elab_exprs::proofs::Steps::first_append))]
pub fn switch(
    alloc: Global,
    names: &Names,
    known: &Known,
    bindings: &mut Bindings,
    tree: &CasetypeTree,
    findings: &mut Findings,
) -> Result<Body, AllocError>
    ensures core { IfOk result (λ b. b ≡ switch_core names.now known.now bindings.old.scope tree.now) }
    ensures first { OnOk result (findings.new.first ≡ first_of findings.old.first (switch_breaches known.now bindings.old.taken bindings.old.scope tree.now)) }
    ensures taken { OnOk result (bindings.new.taken ≡ switch_taken bindings.old.taken tree.now) }
    ensures scope { OnOk result (bindings.new.scope ≡ bindings.old.scope) }
{
    let subject = number(alloc, known, &bindings.scope, &tree.subject, findings)?;
    let width = type_alone(subject.sort);
    match all_cases(alloc, names, known, bindings, width, tree, findings) {
        Ok((cases, default)) => Ok(Body::Casetype {
            switch: subject.core,
            cases,
            default,
        }),
        // by a call, as each way through its variants, where it is let go, is a way through the function
        Err(error) => {
            drop(subject);
            Err(error)
        }
    }
}
