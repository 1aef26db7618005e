//! How deep the functions of a code's program call each other.

ghost use Rattle.std.specs.Prelude.{◌≡◌, ℕ, ◌-◌, ◌^◌, ◌<◌, ◌≤◌, length, max, slice_index, IfOk};
ghost use Rattle.td_ir.specs.Tables.{instruction_of, routine_of};
ghost use Rattle.td_verify.specs.Brackets.{shape_at};
ghost use Rattle.td_verify.specs.Shape.{shapes_of};
ghost use Rattle.td_vm.specs.Need.{called, greatest, most_need};
ghost use Rattle.td_prog_stack.specs.Counted.{counted_of};
ghost use Rattle.td_prog_stack.specs.Depth.{functions_deep, variables_deep};
ghost use Rattle.td_verify_runs.specs.Stretches.{IsRunnable};

use std::alloc::{AllocError, Global};
use td_ir::instructions::Instr;
use td_ir::tables::{Parts, Routine};
use td_verify::Verified;
use td_verify::laws::sound_code_is_safe;

// A routine by its number.
fn routine_at(parts: &Parts, n: usize) -> &Routine
    requires { n < length parts.now.routines }
    ensures { result.now ≡ routine_of parts.now n }
{
    &parts.routines.as_slice()[n]
}

// An instruction by its place.
fn instruction_at(parts: &Parts, at: usize) -> Instr
    requires { at < length parts.now.instructions }
    ensures { result ≡ instruction_of parts.now at }
{
    parts.instructions.as_slice()[at]
}

// What is counted of a routine: itself, or its variables.
#[derive(Clone, Copy)]
pub enum Counted {
    Functions,
    Variables,
}

// What a routine has itself.
fn own(parts: &Parts, counted: Counted, n: usize) -> u64
    requires { n < length parts.now.routines }
    ensures is { result ≡ counted_of counted parts.now n }
    ensures small { result ≤ 65542 }
{
    match counted {
        Counted::Functions => 1,
        Counted::Variables => u64::from(routine_at(parts, n).registers) + 7,
    }
}

// What a table says of a routine; 0 of those that it hasn't.
fn entry_or_zero(table: &[u64], m: usize) -> u64
    ensures { result ≡ slice_index table.now m }
{
    if m < table.len() { table[m] } else { 0 }
}

// What a table says of the routine that an instruction calls.
fn called_at(parts: &Parts, table: &[u64], at: usize) -> u64
    requires { at < length parts.now.instructions }
    ensures is { result ≡ called (λ m. slice_index table.now m) (shape_at (shapes_of parts.now) at) }
    ensures small { (bound : ℕ) → ((m : ℕ) → m < 2 ^ 32 → slice_index table.now m ≤ bound) → result ≤ bound }
{
    match instruction_at(parts, at) {
        Instr::Call { routine, .. } => entry_or_zero(table, routine as usize),
        _ => 0,
    }
}

fn greater(m: u64, n: u64) -> u64
    ensures { result ≡ max m n }
{
    if m < n { n } else { m }
}

// The greatest that a table says of a routine that is called in a stretch.
fn greatest_called(parts: &Parts, table: &[u64], from: usize, to: usize) -> u64
    requires within { to ≤ length parts.now.instructions }
    requires order { from ≤ to }
    ensures is { result ≡ greatest (shapes_of parts.now) (λ m. slice_index table.now m) from (to - from) }
    ensures small { (bound : ℕ) → ((m : ℕ) → m < 2 ^ 32 → slice_index table.now m ≤ bound) → result ≤ bound }
{
    let mut most = 0;
    for at in from..to {
        most = greater(most, called_at(parts, table, at));
    }
    most
}

// What the routines of the deepest chain of calls have together.
fn deepest(alloc: Global, parts: &Parts, counted: Counted) -> Result<u64, AllocError>
    requires { IsRunnable parts.now }
    ensures is { IfOk result (λ deepest. deepest ≡ most_need (counted_of counted parts.now) parts.now) }
    ensures small { IfOk result (λ deepest. deepest ≤ 2 ^ 50) }
{
    let mut table = Vec::new(alloc);
    let mut most = 0;
    let mut from = 0;
    // That there are fewer than 2^64 instructions is what this call says.
    let _count = parts.instructions.len();
    for n in 0..parts.routines.len() {
        let to = from + routine_at(parts, n).length as usize;
        let all = own(parts, counted, n) + greatest_called(parts, &table, from, to);
        table.push(all)?;
        most = greater(most, all);
        from = to;
    }
    Ok(most)
}

// The parts of verified code, with what the verifier promises of them.
fn parts_of(code: &Verified) -> &Parts
    ensures same { result.now ≡ code.now }
    ensures runnable { IsRunnable result.now }
{
    sound_code_is_safe();
    code.code().parts()
}

/// At most how many functions of the code's program are open at once, each called by the one before it. Beside it takes a
/// number for each routine. `AllocError`: there was no memory for these.
pub fn functions_deep(alloc: Global, code: &Verified) -> Result<u64, AllocError>
    ensures { IfOk result (λ deep. deep ≡ functions_deep code.now) }
{
    Ok(deepest(alloc, parts_of(code), Counted::Functions)? + 3)
}

/// At most how many variables of 64 bits these have together. Beside it takes a number for each routine. `AllocError`:
/// there was no memory for these.
pub fn variables_deep(alloc: Global, code: &Verified) -> Result<u64, AllocError>
    ensures { IfOk result (λ deep. deep ≡ variables_deep code.now) }
{
    Ok(deepest(alloc, parts_of(code), Counted::Variables)? + 7)
}
