//! The rules at one instruction, and over one routine.

ghost use Rattle.std.specs.Prelude.{◌≡◌, ℕ, ◌+◌, ◌-◌, ◌<◌, ◌≤◌, ◌↔◌, length, IsTrue, IfOk, IfErr, true, [], Some};
ghost use Rattle.td_verify.specs.declared.shape.Shape.TheVariants.{Return};
ghost use Rattle.td_verify.specs.Brackets.{shape_at, opened};
ghost use Rattle.td_verify.specs.Marks.{marked};
ghost use Rattle.td_verify.specs.Flat.{IsFlat};
ghost use Rattle.td_verify.specs.Rules.{weigh};
ghost use Rattle.td_verify.specs.Findings.{IsKnown, KeepsNow, IsSummaryOf, FailsFirst, IsFirstOrNone};

use crate::bracket::Innermost;
use crate::contexts::{context, read};
use crate::operands::{
    has_operands, has_registers, has_tables, instruction_at, owns_site, params_called, routine_at,
};
use crate::rule::{Breach, Rule};
use crate::rules::{calls_well, cost, depth_of, keeps_nesting, keeps_target};
use crate::shape::Shape;
use crate::ways::mark;
use td_core::limits::MOST_WEIGHT;
use td_ir::tables::Parts;

/// What is known of the whole code, and of the routines so far.
#[derive(Clone, Copy)]
pub struct Known<'a> {
    /// The code's tables and instructions.
    pub parts: &'a Parts,
    /// How each instruction goes on.
    pub shapes: &'a [Shape],
    /// For each instruction the innermost window or loop around it.
    pub contexts: &'a [Innermost],
    /// For each routine so far how deep calls go from it.
    pub depths: &'a [u64],
    /// For each routine so far what it weighs.
    pub weights: &'a [u64],
    /// For each routine so far whether it may end without having taken a byte.
    pub empties: &'a [bool],
    /// For each cell map one more than its greatest number.
    pub tops: &'a [u64],
}

/// What the routines above need of a routine.
#[derive(Clone, Copy)]
pub struct Summary {
    /// How deep calls go from it.
    pub depth: u64,
    /// The sum of what its instructions weigh.
    pub weight: u64,
    /// Whether it may end without having taken a byte.
    pub empty: bool,
}

/// The first rule that an instruction of routine `n` breaks, which weighs so much with those before it.
fn breach(
    known: &Known<'_>,
    marks: &mut [bool],
    n: usize,
    from: usize,
    end: usize,
    at: usize,
    weighs: u64,
) -> Option<Rule>
    requires known { IsKnown known.now n }
    requires from { from ≤ at }
    requires at { at < end }
    requires end { end ≤ length known.now.shapes.now }
    requires size { length marks.old ≡ length known.now.shapes.now }
    requires flat { IsFlat (opened known.now.shapes.now at) }
    requires weighs { weighs ≡ weigh known.now.shapes.now known.now.weights.now from (at + 1 - from) }
    ensures size { length marks.new ≡ length marks.old }
    ensures first { IsFirstOrNone (KeepsNow known.now n from end at) result }
{
    let instruction = instruction_at(known.parts, at);
    let routine = routine_at(known.parts, n);
    let shape = read(known.shapes, at);
    if !keeps_target(known.shapes, known.contexts, end, at) {
        return Some(Rule::Target);
    }
    if !has_registers(
        instruction,
        routine.registers,
        params_called(known.parts, instruction),
    ) {
        return Some(Rule::Register);
    }
    if !calls_well(known.depths, n, shape) {
        return Some(Rule::Depth);
    }
    if !keeps_nesting(known.shapes, known.contexts, known.empties, marks, end, at) {
        return Some(Rule::Loop);
    }
    if !has_tables(known.parts, known.tops, n, instruction)
        || !owns_site(known.parts, n, instruction)
    {
        return Some(Rule::Table);
    }
    if weighs > MOST_WEIGHT {
        return Some(Rule::Weight);
    }
    if !has_operands(instruction) {
        return Some(Rule::Operand);
    }
    None
}

fn is_return(shape: Shape) -> bool
    ensures { IsTrue result ↔ (shape ≡ Return) }
{
    match shape {
        Shape::Return => true,
        _ => false,
    }
}

fn any_return(shapes: &[Shape], marks: &[bool], from: usize, end: usize) -> bool
    requires end { end ≤ length shapes.now }
    requires size { length marks.now ≡ length shapes.now }
    ensures { IsTrue result ↔ ((q : ℕ) × (from ≤ q) × (q < end) × (shape_at shapes.now q ≡ Return) × (marked marks.now q ≡ true)) }
{
    for q in from..end {
        if marks[q] && is_return(read(shapes, q)) {
            return true;
        }
    }
    false
}

/// Goes through routine `n`.
pub(crate) fn check_routine(
    known: &Known<'_>,
    marks: &mut [bool],
    n: usize,
    from: usize,
    end: usize,
) -> Result<Summary, Breach>
    requires known { IsKnown known.now n }
    requires from { from < end }
    requires end { end ≤ length known.now.shapes.now }
    requires size { length marks.old ≡ length known.now.shapes.now }
    requires opens { opened known.now.shapes.now from ≡ Some [] }
    ensures size { length marks.new ≡ length marks.old }
    ensures ok { IfOk result (λ t. IsSummaryOf known.now n from end t) }
    ensures err { IfErr result (λ e. FailsFirst known.now n from end e) }
{
    let mut spent: u64 = 0;
    let mut deepest: u64 = 0;
    for at in from..end {
        let shape = read(known.shapes, at);
        let weighs = spent + cost(known.weights, context(known.contexts, at), shape);
        if let Some(rule) = breach(known, marks, n, from, end, at, weighs) {
            return Err(Breach { rule, at });
        }
        spent = weighs;
        deepest = deepest.max(depth_of(known.depths, shape));
    }
    mark(
        known.shapes,
        known.contexts,
        known.empties,
        marks,
        from,
        end - 1,
    );
    Ok(Summary {
        depth: deepest + 1,
        weight: spent,
        empty: any_return(known.shapes, marks, from, end),
    })
}
