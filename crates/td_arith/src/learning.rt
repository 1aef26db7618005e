//! What a condition tells that is true, or is false, and what is known of a value by its range.

ghost use Rattle.std.specs.Prelude.{◌≡◌, ◌++◌, OnOk};
ghost use Rattle.td_arith.specs.Imports.{Subtract};
ghost use Rattle.td_core.specs.declared.expressions.Relation.TheVariants.{LessEqual};
ghost use Rattle.td_core.specs.Term.{compute};
ghost use Rattle.td_expr.specs.Facts.{fact, facts_of, no_span};
ghost use Rattle.td_arith.specs.Known.{comparison, IsLearned};
ghost use Rattle.td_arith.specs.SafeModule.{end_fact, value_facts, part_facts};

use crate::comparisons::{Known, Side, compared};
use crate::values::ValueRange;
use std::alloc::AllocError;
use td_arith_ranges::relations::turned;
use td_core::expressions::{CoreExpr, Node, Relation};
use td_core::module::Bits;

/// Adds the comparisons that are conjuncts of a condition, which is true, or is false, behind what is known. `AllocError`: there
/// was no memory for one of them.
#[cycle(learning)]
pub(crate) fn learn_condition<'a>(
    truth: bool,
    condition: &'a CoreExpr,
    known: &mut Vec<Known<'a>>,
) -> Result<(), AllocError>
    ensures { OnOk result (IsLearned (facts_of truth condition.now) known.old.items known.new.items) }
{
    match &condition.node {
        Node::Not(a) => learn_condition(!truth, a, known),
        Node::Compare(relation, a, b) => learn_comparison(
            if truth { *relation } else { turned(*relation) },
            Side::Whole(a),
            Side::Whole(b),
            known,
        ),
        Node::Both(a, b) => if truth {
            learn_both(true, a, b, known)
        } else {
            Ok(())
        },
        Node::Either(a, b) => if truth {
            Ok(())
        } else {
            learn_both(false, a, b, known)
        },
        Node::RangeOkay(s, o, a) => if truth {
            learn_range(s, o, a, known)
        } else {
            Ok(())
        },
        _ => Ok(()),
    }
}

/// Adds what two conditions say that are both true, or are both false.
#[cycle(learning)]
#[tactic(auto, using(crate::proofs::Cutting::learned_twice))]
fn learn_both<'a>(
    truth: bool,
    a: &'a CoreExpr,
    b: &'a CoreExpr,
    known: &mut Vec<Known<'a>>,
) -> Result<(), AllocError>
    ensures { OnOk result (IsLearned (facts_of truth a.now ++ facts_of truth b.now) known.old.items known.new.items) }
{
    learn_condition(truth, a, known)?;
    learn_condition(truth, b, known)?;
    Ok(())
}

/// Adds what `is_range_okay` says of a size, an offset and an access.
#[tactic(auto, using(crate::proofs::Cutting::learned_twice))]
fn learn_range<'a>(
    size: &'a CoreExpr,
    offset: &'a CoreExpr,
    access: &'a CoreExpr,
    known: &mut Vec<Known<'a>>,
) -> Result<(), AllocError>
    ensures { OnOk result (IsLearned (fact LessEqual access.now size.now ++ fact LessEqual offset.now (compute Subtract no_span size.now access.now))
        known.old.items known.new.items) }
{
    learn_comparison(
        Relation::LessEqual,
        Side::Whole(access),
        Side::Whole(size),
        known,
    )?;
    learn_comparison(
        Relation::LessEqual,
        Side::Whole(offset),
        Side::Difference(size, access),
        known,
    )?;
    Ok(())
}

/// Adds one comparison behind what is known.
fn learn_comparison<'a>(
    relation: Relation,
    left: Side<'a>,
    right: Side<'a>,
    known: &mut Vec<Known<'a>>,
) -> Result<(), AllocError>
    ensures { OnOk result (IsLearned (comparison relation left.entry right.entry) known.old.items known.new.items) }
{
    known.push(compared(relation, left, right))?;
    Ok(())
}

/// Adds an end of the range of a value in scope, where there is one.
fn learn_end<'a>(
    relation: Relation,
    level: u64,
    range: ValueRange,
    end: Option<u64>,
    known: &mut Vec<Known<'a>>,
) -> Result<(), AllocError>
    ensures { OnOk result (IsLearned (end_fact relation level range end) known.old.items known.new.items) }
{
    let Some(value) = end else {
        return Ok(());
    };
    let (scalar, most) = (range.scalar, range.most);
    let name = Side::Name {
        level,
        scalar,
        most,
    };
    learn_comparison(relation, name, Side::Number { value, scalar }, known)
}

/// Adds both ends of the range of a value in scope.
#[tactic(auto, using(crate::proofs::Cutting::learned_twice))]
fn learn_value<'a>(
    level: u64,
    range: ValueRange,
    known: &mut Vec<Known<'a>>,
) -> Result<(), AllocError>
    ensures { OnOk result (IsLearned (value_facts level range) known.old.items known.new.items) }
{
    learn_end(Relation::GreaterEqual, level, range, range.low, known)?;
    learn_end(Relation::LessEqual, level, range, range.high, known)?;
    Ok(())
}

/// Adds what is known of a part of a field by its value, where it is all of the field. `AllocError`: there was no memory for it.
#[tactic(auto, using(crate::proofs::Cutting::all_known))]
pub(crate) fn learn_part<'a>(
    level: u64,
    range: Option<ValueRange>,
    bits: Option<Bits>,
    known: &mut Vec<Known<'a>>,
) -> Result<(), AllocError>
    ensures { OnOk result (IsLearned (part_facts level range bits) known.old.items known.new.items) }
{
    match (range, bits) {
        (Some(range), None) => learn_value(level, range, known),
        _ => Ok(()),
    }
}
