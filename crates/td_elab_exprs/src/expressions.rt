//! Expressions: their sorts, the core expressions that they stand for, and what they break, all in one walk.

ghost use Rattle.std.specs.Prelude.{◌≡◌, ◌++◌, IfOk, OnErr, OnOk, IsSomeAnd, is_none};
ghost use Rattle.td_ast.specs.Trees as tree;
ghost use Rattle.td_ast.specs.Trees.{span_of};
ghost use Rattle.td_core.specs.Term.{choice};
ghost use Rattle.td_elab_rules.specs.Breach.{first_of, when};
ghost use Rattle.td_elab_rules.specs.declared.breach.Rule.TheVariants.{BadAction};
ghost use Rattle.td_elab_rules.specs.Sorts.{sort_of, core_of, option_core, literal_alone, found_core, start_core, size_core, unary_core, operation_core, range_core, start_sort};
ghost use Rattle.td_elab_rules.specs.ExprRules.{name_breaches, size_breaches, expr_breaches, number_breaches, truth_breaches, fitting_breaches, test_breaches};
ghost use Rattle.td_elab_exprs.specs.Memory.{HasOperator};

use crate::cores::{
    choice_core, found_core, literal_alone, operation_core, range_core, size_core, start_core,
    truth, unary_core,
};
use crate::findings::Findings;
use crate::look_up::{is_nothing, is_type, look_up, size_found, size_named};
use crate::sorts::{
    are_wrong_operands, choice_sort, found_sort, is_number, is_truth, is_wider, is_wrong_choice,
    is_wrong_operand, operation, operation_sort, size_sort, start_sort, type_alone, unary_sort,
};
use std::alloc::{AllocError, Global};
use td_ast::expressions::{BinaryOperator, Expr, ExprKind, SizeofOperand, UnaryOperator};
use td_ast::names::Name;
use td_ast::token::Span;
use td_core::expressions::{CoreExpr, Scalar};
use td_elab_rules::breach::Rule;
use td_elab_rules::expressions::Sort;
use td_elab_rules::known::{Found, Known, Local, Meaning, Scope};

/// What is known of an expression: its sort, and the core expression that it stands for.
#[derive(Drop)]
pub struct Typing {
    pub sort: Sort,
    pub core: CoreExpr,
}

/// Where an expression stands.
#[derive(Clone, Copy)]
struct Context<'a> {
    /// What is known before the definition that it stands in.
    known: &'a Known,
    /// What is known inside that definition, where it stands.
    scope: &'a Scope,
}

/// The span of an expression, parentheses included.
pub fn span_of(e: &Expr) -> Span
    ensures { result ≡ span_of e.now }
{
    e.span
}

/// What the name of a value breaks.
fn check_name(found: Found, at: Span, findings: &mut Findings)
    ensures { findings.new.first ≡ first_of findings.old.first (name_breaches found at) }
{
    match found {
        Found::Nothing => findings.note(Rule::Unknown, at),
        Found::Local(Local::Unreadable) => findings.note(Rule::NotReadable, at),
        Found::Local(Local::Value { .. })
        | Found::Global(Meaning::Constant(_) | Meaning::Member(_)) => {}
        _ => findings.note(Rule::Mismatch, at),
    }
}

/// What `sizeof` breaks: the word stands at `own`, what is asked for at `place`.
#[tactic(auto, using(crate::proofs::Steps::first_append))]
fn check_size(
    context: &Context<'_>,
    own: Span,
    operand: &SizeofOperand,
    place: Span,
    findings: &mut Findings,
)
    ensures { findings.new.first ≡ first_of findings.old.first (size_breaches context.now.known.now context.now.scope.now own operand.now place) }
{
    match operand {
        SizeofOperand::Number(_) => {}
        SizeofOperand::Name(name) => {
            let found = look_up(context.known, context.scope, name.as_slice());
            findings.note_if(is_nothing(found), Rule::Unknown, place);
            findings.note_if(!is_nothing(found) && !is_type(found), Rule::Mismatch, place);
            let is_sized = size_found(context.known, found).is_some();
            findings.note_if(is_type(found) && !is_sized, Rule::NotConstant, own);
        }
        SizeofOperand::This => findings.note_if(
            context.scope.this.is_none(),
            Rule::NotConstant,
            own,
        ),
    }
}

/// An expression: its sort and its core expression, and its breaches noted. `AllocError`: it has an operator or is
/// `is_range_okay`, and there was no memory for its operands.
#[cycle(expression)]
fn expression(
    alloc: Global,
    context: &Context<'_>,
    e: &Expr,
    findings: &mut Findings,
) -> Result<Typing, AllocError>
    ensures memory { OnErr result (HasOperator e.now) }
    ensures sort { IfOk result (λ t. t.sort ≡ sort_of context.now.known.now context.now.scope.now e.now) }
    ensures core { IfOk result (λ t. t.core ≡ core_of context.now.known.now context.now.scope.now e.now) }
    ensures first { OnOk result (findings.new.first ≡ first_of findings.old.first (expr_breaches context.now.known.now context.now.scope.now e.now)) }
{
    match &e.kind {
        ExprKind::Number(n, _) => Ok(Typing {
            sort: Sort::Literal(*n),
            core: literal_alone(*n),
        }),
        ExprKind::Truth(b) => Ok(Typing {
            sort: Sort::Truth,
            core: truth(*b),
        }),
        ExprKind::Name(n) => Ok(named_value(context, n, findings)),
        ExprKind::FieldPos(own) => Ok(field_pos(context, *own, findings)),
        ExprKind::Sizeof(own, operand, place) => {
            Ok(size_of(context, *own, operand, *place, findings))
        }
        ExprKind::RangeOkay(size, offset, access) => {
            range_okay(alloc, context, span_of(e), size, offset, access, findings)
        }
        ExprKind::Unary(operator, own, a) => { unary(alloc, context, *operator, *own, a, findings) }
        ExprKind::Binary(operator, own, a, b) => {
            binary(alloc, context, *operator, *own, a, b, findings)
        }
        ExprKind::Choice(own, c, a, b) => choice(alloc, context, *own, c, a, b, findings),
    }
}

/// The name of a value.
fn named_value(context: &Context<'_>, n: &Name, findings: &mut Findings) -> Typing
    ensures sort { result.sort ≡ sort_of context.now.known.now context.now.scope.now (tree.Name n.now.span n.now) }
    ensures core { result.core ≡ core_of context.now.known.now context.now.scope.now (tree.Name n.now.span n.now) }
    ensures first { findings.new.first ≡ first_of findings.old.first (expr_breaches context.now.known.now context.now.scope.now (tree.Name n.now.span n.now)) }
{
    let found = look_up(context.known, context.scope, n.text.as_slice());
    check_name(found, n.span, findings);
    Typing {
        sort: found_sort(found),
        core: found_core(found),
    }
}

/// `field_pos`, which stands at `own`.
fn field_pos(context: &Context<'_>, own: Span, findings: &mut Findings) -> Typing
    ensures sort { result.sort ≡ start_sort context.now.scope.now.start }
    ensures core { result.core ≡ start_core context.now.scope.now.start }
    ensures first { findings.new.first ≡ first_of findings.old.first (when (is_none context.now.scope.now.start) BadAction own) }
{
    findings.note_if(context.scope.start.is_none(), Rule::BadAction, own);
    Typing {
        sort: start_sort(context.scope.start),
        core: start_core(context.scope.start),
    }
}

/// `sizeof`, which stands at `own`, of what stands at `place`.
fn size_of(
    context: &Context<'_>,
    own: Span,
    operand: &SizeofOperand,
    place: Span,
    findings: &mut Findings,
) -> Typing
    ensures sort { result.sort ≡ sort_of context.now.known.now context.now.scope.now (tree.Sizeof own own operand.now place) }
    ensures core { result.core ≡ core_of context.now.known.now context.now.scope.now (tree.Sizeof own own operand.now place) }
    ensures first { findings.new.first ≡ first_of findings.old.first (expr_breaches context.now.known.now context.now.scope.now (tree.Sizeof own own operand.now place)) }
{
    check_size(context, own, operand, place, findings);
    let size = size_named(context.known, context.scope, operand);
    Typing {
        sort: size_sort(size),
        core: size_core(size),
    }
}

/// Two operands, from the left to the right. The first is let go by a call where there is no second, as each way through its
/// variants is a way through the function.
#[cycle(expression)]
#[tactic(auto, using(crate::proofs::Steps::first_append))]
fn operands(
    alloc: Global,
    context: &Context<'_>,
    a: &Expr,
    b: &Expr,
    findings: &mut Findings,
) -> Result<(Typing, Typing), AllocError>
    ensures left { IfOk result (λ o. (o.0.sort ≡ sort_of context.now.known.now context.now.scope.now a.now) × (o.0.core ≡ core_of context.now.known.now context.now.scope.now a.now)) }
    ensures right { IfOk result (λ o. (o.1.sort ≡ sort_of context.now.known.now context.now.scope.now b.now) × (o.1.core ≡ core_of context.now.known.now context.now.scope.now b.now)) }
    ensures first { OnOk result (findings.new.first ≡ first_of findings.old.first (expr_breaches context.now.known.now context.now.scope.now a.now ++ expr_breaches context.now.known.now context.now.scope.now b.now)) }
{
    let left = expression(alloc, context, a, findings)?;
    match expression(alloc, context, b, findings) {
        Ok(right) => Ok((left, right)),
        Err(error) => {
            drop(left);
            Err(error)
        }
    }
}

/// `is_range_okay(size, offset, access)`
#[cycle(expression)]
#[tactic(auto, using(crate::proofs::Steps::first_append))]
fn range_okay(
    alloc: Global,
    context: &Context<'_>,
    at: Span,
    z: &Expr,
    o: &Expr,
    a: &Expr,
    findings: &mut Findings,
) -> Result<Typing, AllocError>
    ensures sort { IfOk result (λ t. t.sort ≡ sort_of context.now.known.now context.now.scope.now (tree.RangeOkay at z.now o.now a.now)) }
    ensures core { IfOk result (λ t. t.core ≡ core_of context.now.known.now context.now.scope.now (tree.RangeOkay at z.now o.now a.now)) }
    ensures first { OnOk result (findings.new.first ≡ first_of findings.old.first (expr_breaches context.now.known.now context.now.scope.now (tree.RangeOkay at z.now o.now a.now))) }
{
    let (size, offset) = operands(alloc, context, z, o, findings)?;
    let access = match expression(alloc, context, a, findings) {
        Ok(access) => access,
        Err(error) => {
            drop((size, offset));
            return Err(error);
        }
    };
    findings.note_if(is_truth(size.sort), Rule::Mismatch, span_of(z));
    findings.note_if(is_truth(offset.sort), Rule::Mismatch, span_of(o));
    findings.note_if(is_truth(access.sort), Rule::Mismatch, span_of(a));
    Ok(Typing {
        sort: Sort::Truth,
        core: range_core(alloc, size, offset, access)?,
    })
}

/// `!a` or `~a`
#[cycle(expression)]
#[tactic(auto, using(crate::proofs::Steps::first_append))]
fn unary(
    alloc: Global,
    context: &Context<'_>,
    operator: UnaryOperator,
    own: Span,
    a: &Expr,
    findings: &mut Findings,
) -> Result<Typing, AllocError>
    ensures sort { IfOk result (λ t. t.sort ≡ sort_of context.now.known.now context.now.scope.now (tree.Unary own operator own a.now)) }
    ensures core { IfOk result (λ t. t.core ≡ core_of context.now.known.now context.now.scope.now (tree.Unary own operator own a.now)) }
    ensures first { OnOk result (findings.new.first ≡ first_of findings.old.first (expr_breaches context.now.known.now context.now.scope.now (tree.Unary own operator own a.now))) }
{
    let operand = expression(alloc, context, a, findings)?;
    findings.note_if(
        is_wrong_operand(operator, operand.sort),
        Rule::Mismatch,
        own,
    );
    Ok(Typing {
        sort: unary_sort(operator, operand.sort),
        core: unary_core(alloc, operator, operand.core)?,
    })
}

/// `a OPERATOR b`
#[cycle(expression)]
#[tactic(auto, using(crate::proofs::Steps::first_append))]
fn binary(
    alloc: Global,
    context: &Context<'_>,
    operator: BinaryOperator,
    own: Span,
    a: &Expr,
    b: &Expr,
    findings: &mut Findings,
) -> Result<Typing, AllocError>
    ensures sort { IfOk result (λ t. t.sort ≡ sort_of context.now.known.now context.now.scope.now (tree.Binary own operator own a.now b.now)) }
    ensures core { IfOk result (λ t. t.core ≡ core_of context.now.known.now context.now.scope.now (tree.Binary own operator own a.now b.now)) }
    ensures first { OnOk result (findings.new.first ≡ first_of findings.old.first (expr_breaches context.now.known.now context.now.scope.now (tree.Binary own operator own a.now b.now))) }
{
    let operation = operation(operator);
    let (left, right) = operands(alloc, context, a, b, findings)?;
    findings.note_if(
        are_wrong_operands(operation, left.sort, right.sort),
        Rule::Mismatch,
        own,
    );
    Ok(Typing {
        sort: operation_sort(operation, left.sort, right.sort),
        core: operation_core(alloc, operation, own, left, right)?,
    })
}

/// `c ? a : b`
#[cycle(expression)]
#[tactic(auto, using(crate::proofs::Steps::first_append))]
fn choice(
    alloc: Global,
    context: &Context<'_>,
    own: Span,
    c: &Expr,
    a: &Expr,
    b: &Expr,
    findings: &mut Findings,
) -> Result<Typing, AllocError>
    ensures sort { IfOk result (λ t. t.sort ≡ sort_of context.now.known.now context.now.scope.now (tree.Choice own own c.now a.now b.now)) }
    ensures core { IfOk result (λ t. t.core ≡ core_of context.now.known.now context.now.scope.now (tree.Choice own own c.now a.now b.now)) }
    ensures first { OnOk result (findings.new.first ≡ first_of findings.old.first (expr_breaches context.now.known.now context.now.scope.now (tree.Choice own own c.now a.now b.now))) }
{
    let (condition, first) = operands(alloc, context, c, a, findings)?;
    let second = match expression(alloc, context, b, findings) {
        Ok(second) => second,
        Err(error) => {
            drop((condition, first));
            return Err(error);
        }
    };
    findings.note_if(
        is_wrong_choice(condition.sort, first.sort, second.sort),
        Rule::Mismatch,
        own,
    );
    Ok(Typing {
        sort: choice_sort(first.sort, second.sort),
        core: choice_core(alloc, condition.core, first, second)?,
    })
}

/// An expression at a place that takes a number. `AllocError` as of `expression`.
#[tactic(auto, using(crate::proofs::Steps::first_append))]
pub fn number(
    alloc: Global,
    known: &Known,
    scope: &Scope,
    e: &Expr,
    findings: &mut Findings,
) -> Result<Typing, AllocError>
    ensures memory { OnErr result (HasOperator e.now) }
    ensures sort { IfOk result (λ t. t.sort ≡ sort_of known.now scope.now e.now) }
    ensures core { IfOk result (λ t. t.core ≡ core_of known.now scope.now e.now) }
    ensures first { OnOk result (findings.new.first ≡ first_of findings.old.first (number_breaches known.now scope.now e.now)) }
{
    let context = Context { known, scope };
    let typing = expression(alloc, &context, e, findings)?;
    findings.note_if(is_truth(typing.sort), Rule::Mismatch, span_of(e));
    Ok(typing)
}

/// An expression at a place that takes a number no wider than a type. `AllocError` as of `expression`.
#[tactic(auto, using(crate::proofs::Steps::first_append))]
pub fn fitting(
    alloc: Global,
    known: &Known,
    scope: &Scope,
    w: Scalar,
    e: &Expr,
    findings: &mut Findings,
) -> Result<Typing, AllocError>
    ensures memory { OnErr result (HasOperator e.now) }
    ensures sort { IfOk result (λ t. t.sort ≡ sort_of known.now scope.now e.now) }
    ensures core { IfOk result (λ t. t.core ≡ core_of known.now scope.now e.now) }
    ensures first { OnOk result (findings.new.first ≡ first_of findings.old.first (fitting_breaches known.now scope.now w e.now)) }
{
    let typing = number(alloc, known, scope, e, findings)?;
    findings.note_if(
        is_wider(type_alone(typing.sort), w),
        Rule::Narrowing,
        span_of(e),
    );
    Ok(typing)
}

/// An expression at a place that takes a truth value. `AllocError` as of `expression`.
#[tactic(auto, using(crate::proofs::Steps::first_append))]
pub fn truth_value(
    alloc: Global,
    known: &Known,
    scope: &Scope,
    e: &Expr,
    findings: &mut Findings,
) -> Result<CoreExpr, AllocError>
    ensures memory { OnErr result (HasOperator e.now) }
    ensures core { IfOk result (λ c. c ≡ core_of known.now scope.now e.now) }
    ensures first { OnOk result (findings.new.first ≡ first_of findings.old.first (truth_breaches known.now scope.now e.now)) }
{
    let context = Context { known, scope };
    let typing = expression(alloc, &context, e, findings)?;
    findings.note_if(is_number(typing.sort), Rule::Mismatch, span_of(e));
    Ok(typing.core)
}

/// A refinement or `where`, where there is one. `AllocError` as of `expression`, of the one that is there.
pub fn test(
    alloc: Global,
    known: &Known,
    scope: &Scope,
    e: &Option<Expr>,
    findings: &mut Findings,
) -> Result<Option<CoreExpr>, AllocError>
    ensures memory { OnErr result (IsSomeAnd e.now HasOperator) }
    ensures core { IfOk result (λ c. c ≡ option_core known.now scope.now e.now) }
    ensures first { OnOk result (findings.new.first ≡ first_of findings.old.first (test_breaches known.now scope.now e.now)) }
{
    match e {
        None => Ok(None),
        Some(e) => Ok(Some(truth_value(alloc, known, scope, e, findings)?)),
    }
}
