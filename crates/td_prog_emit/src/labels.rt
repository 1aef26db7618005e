//! To which instructions gotos lead.

ghost use Rattle.std.specs.Prelude.{◌≡◌, ℕ, ◌+◌, ◌<◌, ◌||◌, [], ◌∷◌, IfOk, MatchOption, false, flat_map, length, nat_eq, slice_index_or};
ghost use Rattle.td_ir.specs.Tables.{instruction_at};
ghost use Rattle.td_num.specs.Lists.{is_among};
ghost use Rattle.td_prog_emit.specs.Labels.{targets};

use std::alloc::{AllocError, Global};
use td_ir::instructions::Instr;

// The place to which an instruction leads by a goto.
fn target_of(instruction: Instr) -> Option<u32>
    ensures { MatchOption result (targets instruction ≡ []) (λ target. targets instruction ≡ target ∷ []) }
{
    match instruction {
        Instr::Jump { target } | Instr::JumpIf { target, .. } | Instr::JumpUnless { target, .. } =>
            Some(target),
        Instr::Const { .. }
        | Instr::Member { .. }
        | Instr::Op { .. }
        | Instr::Bits { .. }
        | Instr::Pos { .. }
        | Instr::Call { .. }
        | Instr::Return
        | Instr::Fetch { .. }
        | Instr::SkipK { .. }
        | Instr::Skip { .. }
        | Instr::Rest
        | Instr::Zeros { .. }
        | Instr::Zeroterm { .. }
        | Instr::NarrowK { .. }
        | Instr::Narrow { .. }
        | Instr::Divides { .. }
        | Instr::While { .. }
        | Instr::Again { .. }
        | Instr::Widen { .. }
        | Instr::Fail { .. }
        | Instr::Get { .. }
        | Instr::Set { .. }
        | Instr::Mark
        | Instr::Copy { .. }
        | Instr::Left { .. } => None,
    }
}

fn mark_place(marks: &mut [bool], place: usize)
    ensures { (k : ℕ) → k < length marks.old → slice_index_or marks.new k false ≡ slice_index_or marks.old k false || nat_eq k place }
{
    if place < marks.len() {
        marks[place] = true;
    }
}

fn mark_target(marks: &mut [bool], first: usize, target: usize)
    ensures { (k : ℕ) → k < length marks.old → slice_index_or marks.new k false ≡ slice_index_or marks.old k false || nat_eq (first + k) target }
{
    if first <= target {
        mark_place(marks, target - first);
    }
}

fn mark(marks: &mut [bool], first: usize, instruction: Instr)
    ensures { (k : ℕ) → k < length marks.old → slice_index_or marks.new k false ≡ slice_index_or marks.old k false || is_among (targets instruction) (first + k) }
{
    match target_of(instruction) {
        Some(target) => mark_target(marks, first, target as usize),
        None => {}
    }
}

fn instruction_in(instructions: &[Instr], at: usize) -> Instr
    requires { at < length instructions.now }
    ensures { result ≡ instruction_at instructions.now at }
{
    instructions[at]
}

fn mark_all(marks: &mut [bool], first: usize, instructions: &[Instr])
    requires { (k : ℕ) → k < length marks.old → slice_index_or marks.old k false ≡ false }
    ensures { (k : ℕ) → k < length marks.old → slice_index_or marks.new k false ≡ is_among (flat_map targets instructions.now) (first + k) }
{
    for at in 0..instructions.len() {
        mark(marks, first, instruction_in(instructions, at));
    }
}

/// For each of these instructions, the first of which stands at a place, whether one of them leads to it.
pub fn labels(alloc: Global, instructions: &[Instr], first: usize) -> Result<Vec<bool>, AllocError>
    ensures count { IfOk result (λ marks. length marks.items ≡ length instructions.now) }
    ensures marked { IfOk result (λ marks. (k : ℕ) → k < length marks.items → slice_index_or marks.items k false ≡ is_among (flat_map targets instructions.now) (first + k)) }
{
    let mut marks = vec![in alloc; false; instructions.len()]?;
    mark_all(&mut marks, first, instructions);
    Ok(marks)
}
