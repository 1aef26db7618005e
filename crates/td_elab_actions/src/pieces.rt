//! Statements, each elaborated to what it does.

ghost use Rattle.std.specs.Prelude.{◌≡◌, ◌++◌, IfOk, OnErr, OnOk, cond, nat_le};
ghost use Rattle.td_ast.specs.Statements.{Var};
ghost use Rattle.td_elab_rules.specs.Breach.{first_of};
ghost use Rattle.td_elab_rules.specs.Known.{nothing_known, with_outer};
ghost use Rattle.td_elab_rules.specs.Actions.{stored_cell, stored_slot, target_breaches, stored_breaches, read_breaches, with_read, var_breaches, statement_breaches, scope_after};
ghost use Rattle.td_elab_exprs.specs.Memory.{HasOperator};
ghost use Rattle.td_elab_actions.specs.declared.pieces.Piece.TheVariants as a_piece;
ghost use Rattle.td_core.specs.Types.{bits, type_of};
ghost use Rattle.td_elab_actions.specs.Pieces.{set_piece, read_piece};
ghost use Rattle.td_elab_actions.specs.Memory.{StoresOperator};

use crate::cells::{cell_of, check_read, check_target, row_cell};
use crate::scopes::{Bindings, add_local, add_value, scalar_of, take_name};
use std::alloc::{AllocError, Global};
use td_ast::actions::Assigned;
use td_ast::expressions::Expr;
use td_ast::names::Name;
use td_ast::token::Span;
use td_core::actions::Action;
use td_core::expressions::{CoreExpr, Scalar};
use td_elab_exprs::cores::start_core;
use td_elab_exprs::expressions::{fitting, number, span_of};
use td_elab_exprs::findings::Findings;
use td_elab_exprs::look_up::{is_literal_name, look_up};
use td_elab_rules::actions::Target;
use td_elab_rules::breach::Rule;
use td_elab_rules::known::{Known, Local, Scope, Taken};
use td_expr::types::{bits_of, greatest_of, type_of};

/// What a statement does, apart from what follows it. A cell is one of its definition's own, by its place.
#[derive(Drop)]
pub enum Piece {
    /// Nothing, as a rule is broken.
    Nothing,
    /// `*p = e;`
    Set(u32, CoreExpr),
    /// `var x = *p;`
    Read(u32),
    /// `if (e) { .. } else { .. }`
    If(CoreExpr, Action, Action),
    /// `return e;`
    Return(CoreExpr),
    /// `abort;`
    Abort,
}

/// A cell of this type is set, where the value is no wider.
fn set_if_narrow(cell: u32, w: Scalar, core: CoreExpr) -> Piece
    ensures { result ≡ cond (nat_le (bits (type_of core)) (bits w)) (a_piece.Set cell core) a_piece.Nothing }
{
    if bits_of(type_of(&core)) <= bits_of(w) {
        Piece::Set(cell, core)
    } else {
        Piece::Nothing
    }
}

/// `*p = e;`, where p is this target. `AllocError`: e has an operator or is `is_range_okay`, and out of memory.
#[tactic(auto, using(td_elab_exprs::proofs::Steps::first_append))]
fn store_value(
    alloc: Global,
    known: &Known,
    scope: &Scope,
    target: Target,
    e: &Expr,
    findings: &mut Findings,
) -> Result<Piece, AllocError>
    ensures memory { OnErr result (HasOperator e.now) }
    ensures core { IfOk result (λ p. p ≡ set_piece known.now scope.now target (Assigned.Value e.now)) }
    ensures first { OnOk result (findings.new.first ≡ first_of findings.old.first (stored_breaches known.now scope.now target (Assigned.Value e.now))) }
{
    match target {
        Target::Unknown | Target::NoCell => {
            number(alloc, known, scope, e, findings)?;
            Ok(Piece::Nothing)
        }
        Target::Number(cell, number) => {
            let w = scalar_of(number.width);
            let typing = fitting(alloc, known, scope, w, e, findings)?;
            Ok(set_if_narrow(cell, w, typing.core))
        }
        Target::Pointer(_) => {
            findings.note(Rule::Mismatch, span_of(e));
            number(alloc, known, scope, e, findings)?;
            Ok(Piece::Nothing)
        }
    }
}

/// `*p = field_ptr;`, where p is this target and `field_ptr` stands at `at`.
fn store_pointer(scope: &Scope, target: Target, at: Span, findings: &mut Findings) -> Piece
    ensures core { result ≡ set_piece nothing_known scope.now target (Assigned.FieldPtr at) }
    ensures first { findings.new.first ≡ first_of findings.old.first (stored_breaches nothing_known scope.now target (Assigned.FieldPtr at)) }
{
    match target {
        Target::Unknown | Target::NoCell => Piece::Nothing,
        Target::Number(_, _) => {
            findings.note(Rule::Mismatch, at);
            Piece::Nothing
        }
        Target::Pointer(cell) => Piece::Set(cell, start_core(scope.start)),
    }
}

/// What is stored in a target, and its breaches noted. `AllocError`: it has an operator or is `is_range_okay`, and out
/// of memory; never for `field_ptr`.
pub fn store(
    alloc: Global,
    known: &Known,
    scope: &Scope,
    target: Target,
    assigned: &Assigned,
    findings: &mut Findings,
) -> Result<Piece, AllocError>
    ensures memory { OnErr result (StoresOperator assigned.now) }
    ensures core { IfOk result (λ p. p ≡ set_piece known.now scope.now target assigned.now) }
    ensures first { OnOk result (findings.new.first ≡ first_of findings.old.first (stored_breaches known.now scope.now target assigned.now)) }
{
    match assigned {
        Assigned::Value(e) => store_value(alloc, known, scope, target, e, findings),
        Assigned::FieldPtr(at) => Ok(store_pointer(scope, target, *at, findings)),
    }
}

/// `*p = rhs;`. `AllocError` as of `store`.
#[tactic(auto, using(td_elab_exprs::proofs::Steps::first_append))]
pub(crate) fn store_cell(
    alloc: Global,
    known: &Known,
    scope: &Scope,
    p: &Name,
    assigned: &Assigned,
    findings: &mut Findings,
) -> Result<Piece, AllocError>
    ensures memory { OnErr result (StoresOperator assigned.now) }
    ensures core { IfOk result (λ x. x ≡ set_piece known.now scope.now (stored_cell known.now scope.now p.now) assigned.now) }
    ensures first { OnOk result (findings.new.first ≡ first_of findings.old.first (target_breaches (stored_cell known.now scope.now p.now) p.now.span ++ stored_breaches known.now scope.now (stored_cell known.now scope.now p.now) assigned.now)) }
{
    let target = cell_of(look_up(known, scope, p.text.as_slice()));
    check_target(target, p.span, findings);
    store(alloc, known, scope, target, assigned, findings)
}

/// `p->f = rhs;`
#[tactic(auto, using(td_elab_exprs::proofs::Steps::first_append))]
pub(crate) fn store_slot(
    alloc: Global,
    known: &Known,
    scope: &Scope,
    p: &Name,
    f: &Name,
    assigned: &Assigned,
    findings: &mut Findings,
) -> Result<Piece, AllocError>
    ensures core { IfOk result (λ x. x ≡ set_piece known.now scope.now (stored_slot known.now scope.now p.now f.now) assigned.now) }
    ensures first { OnOk result (findings.new.first ≡ first_of findings.old.first (target_breaches (stored_slot known.now scope.now p.now f.now) p.now.span ++ stored_breaches known.now scope.now (stored_slot known.now scope.now p.now f.now) assigned.now)) }
{
    let found = look_up(known, scope, p.text.as_slice());
    let target = row_cell(known, found, f.text.as_slice())?;
    check_target(target, p.span, findings);
    store(alloc, known, scope, target, assigned, findings)
}

/// A `var` in scope, which reads a target. `AllocError`: out of memory.
fn add_read(alloc: Global, scope: &mut Scope, name: &[u8], target: Target) -> Result<(), AllocError>
    ensures { OnOk result (scope.new ≡ with_read scope.old name.now target) }
{
    match target {
        Target::Unknown | Target::NoCell => add_local(alloc, scope, name, Local::Unreadable),
        Target::Number(_, number) => {
            let w = scalar_of(number.width);
            add_value(alloc, scope, name, w, greatest_of(w))
        }
        Target::Pointer(_) => {
            let w = Scalar::ThirtyTwo;
            add_value(alloc, scope, name, w, greatest_of(w))
        }
    }
}

/// What reads a target.
fn read(target: Target) -> Piece
    ensures { result ≡ read_piece target }
{
    match target {
        Target::Unknown | Target::NoCell => Piece::Nothing,
        Target::Number(cell, _) | Target::Pointer(cell) => Piece::Read(cell),
    }
}

/// What the statement `var x = *p;` breaks, where p is this target and `*` stands at `star`.
#[tactic(auto, using(td_elab_exprs::proofs::Steps::first_append))]
fn check_var(
    known: &Known,
    taken: &Taken,
    x: &Name,
    star: Span,
    p: &Name,
    target: Target,
    findings: &mut Findings,
)
    ensures { findings.new.first ≡ first_of findings.old.first (target_breaches target p.now.span ++ (read_breaches target star ++ var_breaches known.now taken.now x.now)) }
{
    check_target(target, p.span, findings);
    check_read(target, star, findings);
    let name = x.text.as_slice();
    let is_taken = taken.all.contains(name) || is_literal_name(known, name);
    findings.note_if(is_taken, Rule::Twice, x.span);
}

/// `var x = *p;`, where `*` stands at `star`. `AllocError`: out of memory.
pub fn var(
    alloc: Global,
    known: &Known,
    bindings: &mut Bindings,
    x: &Name,
    star: Span,
    p: &Name,
    findings: &mut Findings,
) -> Result<Piece, AllocError>
    ensures core { IfOk result (λ r. r ≡ read_piece (stored_cell known.now bindings.old.scope p.now)) }
    ensures first { OnOk result (findings.new.first ≡ first_of findings.old.first (statement_breaches known.now bindings.old.taken bindings.old.scope (Var star x.now star p.now))) }
    ensures taken { OnOk result (bindings.new.taken ≡ with_outer bindings.old.taken x.now.text) }
    ensures scope { OnOk result (bindings.new.scope ≡ scope_after known.now bindings.old.scope (Var star x.now star p.now)) }
{
    let target = cell_of(look_up(known, &bindings.scope, p.text.as_slice()));
    check_var(known, &bindings.taken, x, star, p, target, findings);
    take_name(alloc, &mut bindings.taken, x.text.as_slice())?;
    add_read(alloc, &mut bindings.scope, x.text.as_slice(), target)?;
    Ok(read(target))
}
