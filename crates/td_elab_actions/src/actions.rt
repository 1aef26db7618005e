//! The action of a field.

ghost use Rattle.std.specs.Prelude.{◌≡◌, ◌≢◌, ◌++◌, IfOk, None, OnErr, OnOk};
ghost use Rattle.td_ast.specs.Statements.{block_of};
ghost use Rattle.td_core.specs.Term.{done};
ghost use Rattle.td_elab_rules.specs.Breach.{first_of};
ghost use Rattle.td_elab_rules.specs.Sorts.{core_of};
ghost use Rattle.td_elab_rules.specs.ExprRules.{truth_breaches};
ghost use Rattle.td_elab_exprs.specs.Memory.{HasOperator};
ghost use Rattle.td_elab_rules.specs.Actions.{statement_breaches, block_breaches, vars_after, block_vars, scope_after, block_core, shape_breaches, inside, action_breaches, action_vars, action_core};
ghost use Rattle.td_elab_actions.specs.declared.pieces.Piece.TheVariants as pieces;
ghost use Rattle.td_elab_actions.specs.Pieces.{piece_of, pieces_of, block_scope, followed, chained};

use crate::pieces::{Piece, store_cell, store_slot, var};
use crate::scopes::{Bindings, add_level, cut_back};
use crate::steps::{fork, last, read, set};
use crate::ways::{block_ways, is_shaped};
use std::alloc::{AllocError, Global};
use td_ast::actions::{ActionKind, ActionTree, Block, Stmt, StmtKind};
use td_ast::expressions::Expr;
use td_ast::token::Span;
use td_core::actions::{Action, ActionStep};
use td_elab_exprs::expressions::truth_value;
use td_elab_exprs::findings::Findings;
use td_elab_rules::breach::Rule;
use td_elab_rules::known::{Known, Scope};

// Where a value is let go, each way through its variants is a way through the function. So what has many is let go by a call.

/// A statement, apart from what follows it. `AllocError`: out of memory.
#[cycle(block)]
#[tactic(auto, using(td_elab_exprs::proofs::Steps::first_append))]
fn piece(
    alloc: Global,
    known: &Known,
    bindings: &mut Bindings,
    statement: &Stmt,
    findings: &mut Findings,
) -> Result<Piece, AllocError>
    ensures core { IfOk result (λ p. p ≡ piece_of known.now bindings.old.scope statement.now) }
    ensures first { OnOk result (findings.new.first ≡ first_of findings.old.first (statement_breaches known.now bindings.old.taken bindings.old.scope statement.now)) }
    ensures taken { OnOk result (bindings.new.taken ≡ vars_after bindings.old.taken statement.now) }
    ensures scope { OnOk result (bindings.new.scope ≡ scope_after known.now bindings.old.scope statement.now) }
{
    match &statement.kind {
        StmtKind::Store(p, assigned) => store_cell(
            alloc,
            known,
            &bindings.scope,
            p,
            assigned,
            findings,
        ),
        StmtKind::StoreField(p, f, assigned) => {
            store_slot(alloc, known, &bindings.scope, p, f, assigned, findings)
        }
        StmtKind::Var(x, star, p) => var(alloc, known, bindings, x, *star, p, findings),
        StmtKind::If(e, one) => if_piece(alloc, known, bindings, e, one, findings),
        StmtKind::IfElse(e, one, other) => {
            if_else_piece(alloc, known, bindings, e, one, other, findings)
        }
        StmtKind::Return(e) => returned(alloc, known, &bindings.scope, e, findings),
        StmtKind::Abort => Ok(Piece::Abort),
    }
}

/// `if (e) { .. }`. `AllocError`: out of memory.
#[cycle(block)]
#[tactic(auto, using(td_elab_exprs::proofs::Steps::first_append))]
fn if_piece(
    alloc: Global,
    known: &Known,
    bindings: &mut Bindings,
    e: &Expr,
    one: &Block,
    findings: &mut Findings,
) -> Result<Piece, AllocError>
    ensures core { IfOk result (λ p. p ≡ pieces.If (core_of known.now bindings.old.scope e.now) (block_core known.now bindings.old.scope (block_of one.now)) done) }
    ensures first { OnOk result (findings.new.first ≡ first_of findings.old.first
        (truth_breaches known.now bindings.old.scope e.now ++ block_breaches known.now bindings.old.taken bindings.old.scope (block_of one.now))) }
    ensures taken { OnOk result (bindings.new.taken ≡ block_vars bindings.old.taken (block_of one.now)) }
    ensures scope { OnOk result (bindings.new.scope ≡ bindings.old.scope) }
{
    let condition = truth_value(alloc, known, &bindings.scope, e, findings)?;
    match block(alloc, known, bindings, one, findings) {
        Ok(one) => Ok(Piece::If(
            condition,
            one,
            Action {
                step: ActionStep::Done,
            },
        )),
        Err(error) => {
            drop(condition);
            Err(error)
        }
    }
}

/// `if (e) { .. } else { .. }`. `AllocError`: out of memory.
#[cycle(block)]
#[tactic(auto, using(td_elab_exprs::proofs::Steps::first_append))]
fn if_else_piece(
    alloc: Global,
    known: &Known,
    bindings: &mut Bindings,
    e: &Expr,
    one: &Block,
    other: &Block,
    findings: &mut Findings,
) -> Result<Piece, AllocError>
    ensures core { IfOk result (λ p. p ≡ pieces.If (core_of known.now bindings.old.scope e.now)
        (block_core known.now bindings.old.scope (block_of one.now)) (block_core known.now bindings.old.scope (block_of other.now))) }
    ensures first { OnOk result (findings.new.first ≡ first_of findings.old.first
        (truth_breaches known.now bindings.old.scope e.now ++ (block_breaches known.now bindings.old.taken bindings.old.scope (block_of one.now)
        ++ block_breaches known.now (block_vars bindings.old.taken (block_of one.now)) bindings.old.scope (block_of other.now)))) }
    ensures taken { OnOk result (bindings.new.taken ≡ block_vars (block_vars bindings.old.taken (block_of one.now)) (block_of other.now)) }
    ensures scope { OnOk result (bindings.new.scope ≡ bindings.old.scope) }
{
    let condition = truth_value(alloc, known, &bindings.scope, e, findings)?;
    match branches(alloc, known, bindings, one, other, findings) {
        Ok((one, other)) => Ok(Piece::If(condition, one, other)),
        Err(error) => {
            drop(condition);
            Err(error)
        }
    }
}

/// The branches of an `if` with an `else`. `AllocError`: out of memory.
#[cycle(block)]
#[tactic(auto, using(td_elab_exprs::proofs::Steps::first_append))]
fn branches(
    alloc: Global,
    known: &Known,
    bindings: &mut Bindings,
    one: &Block,
    other: &Block,
    findings: &mut Findings,
) -> Result<(Action, Action), AllocError>
    ensures core { IfOk result (λ b. (b.0 ≡ block_core known.now bindings.old.scope (block_of one.now)) × (b.1 ≡ block_core known.now bindings.old.scope (block_of other.now))) }
    ensures first { OnOk result (findings.new.first ≡ first_of findings.old.first
        (block_breaches known.now bindings.old.taken bindings.old.scope (block_of one.now)
        ++ block_breaches known.now (block_vars bindings.old.taken (block_of one.now)) bindings.old.scope (block_of other.now))) }
    ensures taken { OnOk result (bindings.new.taken ≡ block_vars (block_vars bindings.old.taken (block_of one.now)) (block_of other.now)) }
    ensures scope { OnOk result (bindings.new.scope ≡ bindings.old.scope) }
{
    let one = block(alloc, known, bindings, one, findings)?;
    match block(alloc, known, bindings, other, findings) {
        Ok(other) => Ok((one, other)),
        Err(error) => {
            drop(one);
            Err(error)
        }
    }
}

/// `return e;`. `AllocError`: e has an operator or is `is_range_okay`, and out of memory.
fn returned(
    alloc: Global,
    known: &Known,
    scope: &Scope,
    e: &Expr,
    findings: &mut Findings,
) -> Result<Piece, AllocError>
    ensures memory { OnErr result (HasOperator e.now) }
    ensures core { IfOk result (λ p. p ≡ pieces.Return (core_of known.now scope.now e.now)) }
    ensures first { OnOk result (findings.new.first ≡ first_of findings.old.first (truth_breaches known.now scope.now e.now)) }
{
    let e = truth_value(alloc, known, scope, e, findings)?;
    Ok(Piece::Return(e))
}

/// The statements of a block, one by one. `AllocError`: out of memory.
#[cycle(block)]
fn pieces(
    alloc: Global,
    known: &Known,
    bindings: &mut Bindings,
    statements: &[Stmt],
    findings: &mut Findings,
) -> Result<Vec<Piece>, AllocError>
    ensures core { IfOk result (λ ps. ps.items ≡ pieces_of known.now bindings.old.scope (block_of statements.now)) }
    ensures first { OnOk result (findings.new.first ≡ first_of findings.old.first (block_breaches known.now bindings.old.taken bindings.old.scope (block_of statements.now))) }
    ensures taken { OnOk result (bindings.new.taken ≡ block_vars bindings.old.taken (block_of statements.now)) }
    ensures scope { OnOk result (bindings.new.scope ≡ block_scope known.now bindings.old.scope (block_of statements.now)) }
{
    let mut pieces = Vec::new(alloc);
    for statement in statements {
        pieces.push(piece(alloc, known, bindings, statement, findings)?)?;
    }
    Ok(pieces)
}

/// A block, whose `var`s are in scope up to its end. `AllocError`: out of memory.
#[cycle(block)]
fn block(
    alloc: Global,
    known: &Known,
    bindings: &mut Bindings,
    block: &Block,
    findings: &mut Findings,
) -> Result<Action, AllocError>
    ensures core { IfOk result (λ a. a ≡ block_core known.now bindings.old.scope (block_of block.now)) }
    ensures first { OnOk result (findings.new.first ≡ first_of findings.old.first (block_breaches known.now bindings.old.taken bindings.old.scope (block_of block.now))) }
    ensures taken { OnOk result (bindings.new.taken ≡ block_vars bindings.old.taken (block_of block.now)) }
    ensures scope { OnOk result (bindings.new.scope ≡ bindings.old.scope) }
{
    let (names, levels) = (bindings.scope.locals.len(), bindings.scope.levels);
    let pieces = pieces(alloc, known, bindings, block.as_slice(), findings)?;
    cut_back(&mut bindings.scope, names, levels);
    chained(alloc, pieces)
}

/// Pieces one after the other. `AllocError`: out of memory.
fn chained(alloc: Global, pieces: Vec<Piece>) -> Result<Action, AllocError>
    ensures { IfOk result (λ a. a ≡ chained pieces.items) }
{
    let mut pieces = pieces;
    let mut rest = Action {
        step: ActionStep::Done,
    };
    while let Some(piece) = pieces.pop() {
        rest = followed(alloc, piece, rest)?;
    }
    Ok(rest)
}

/// A piece, and what follows it. `AllocError`: out of memory.
fn followed(alloc: Global, piece: Piece, rest: Action) -> Result<Action, AllocError>
    ensures { IfOk result (λ a. a ≡ followed piece rest) }
{
    match piece {
        Piece::Nothing => Ok(rest),
        Piece::Set(cell, e) => set(alloc, cell, e, rest),
        Piece::Read(cell) => read(alloc, cell, rest),
        Piece::If(e, one, other) => fork(alloc, e, one, other, rest),
        Piece::Return(e) => Ok(last(ActionStep::Return(e), rest)),
        Piece::Abort => Ok(last(ActionStep::Abort, rest)),
    }
}

/// An action whose paths its word doesn't have, or with a statement after a `return` or `abort` in its block.
fn check_shape(kind: ActionKind, at: Span, statements: &Block, findings: &mut Findings)
    ensures { findings.new.first ≡ first_of findings.old.first (shape_breaches kind at (block_of statements.now)) }
{
    let ways = block_ways(statements.as_slice());
    let is_broken = ways.after || !is_shaped(kind, ways);
    findings.note_if(is_broken, Rule::BadAction, at);
}

/// The statements of an action, with the position of its field in scope. `AllocError`: out of memory.
fn statements(
    alloc: Global,
    known: &Known,
    bindings: &mut Bindings,
    statements: &Block,
    findings: &mut Findings,
) -> Result<Action, AllocError>
    ensures core { IfOk result (λ a. a ≡ block_core known.now (inside bindings.old.scope) (block_of statements.now)) }
    ensures first { OnOk result (findings.new.first ≡ first_of findings.old.first (block_breaches known.now bindings.old.taken (inside bindings.old.scope) (block_of statements.now))) }
    ensures taken { OnOk result (bindings.new.taken ≡ block_vars bindings.old.taken (block_of statements.now)) }
    ensures scope { OnOk result (bindings.new.scope ≡ bindings.old.scope) }
{
    let (levels, start) = (bindings.scope.levels, bindings.scope.start);
    add_level(&mut bindings.scope)?;
    bindings.scope.start = Some(levels);
    let action = block(alloc, known, bindings, statements, findings)?;
    bindings.scope.levels = levels;
    bindings.scope.start = start;
    Ok(action)
}

/// The action of a field, where it has one that is no copy; its breaches are noted, and the names of its `var`s are given.
/// The scope is then as before. `AllocError`: there is one, and out of memory.
#[tactic(auto, using(td_elab_exprs::proofs::Steps::first_append))]
pub fn action(
    alloc: Global,
    known: &Known,
    bindings: &mut Bindings,
    tree: &Option<ActionTree>,
    findings: &mut Findings,
) -> Result<Option<Action>, AllocError>
    ensures memory { OnErr result (tree.now ≢ None) }
    ensures core { IfOk result (λ a. a ≡ action_core known.now bindings.old.scope tree.now) }
    ensures first { OnOk result (findings.new.first ≡ first_of findings.old.first (action_breaches known.now bindings.old.taken bindings.old.scope tree.now)) }
    ensures taken { OnOk result (bindings.new.taken ≡ action_vars bindings.old.taken tree.now) }
    ensures scope { OnOk result (bindings.new.scope ≡ bindings.old.scope) }
{
    match tree {
        None => Ok(None),
        Some(ActionTree::Copied { .. }) => Ok(None),
        Some(
            ActionTree::Done {
                kind,
                span,
                statements: block,
            },
        ) => {
            check_shape(*kind, *span, block, findings);
            let action = statements(alloc, known, bindings, block, findings)?;
            Ok(Some(action))
        }
    }
}
