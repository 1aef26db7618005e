//! The verifier.

ghost use Rattle.std.specs.Prelude.{◌≡◌, ◌+◌, ◌<◌, length, IfOk, IfErr, OnOk, map, [], ◌∷◌, ◌++◌, Some, vec_capacity};
ghost use Rattle.td_ir.specs.Tables.{lengths_of, begin};
ghost use Rattle.td_ir.specs.WellFormed.{IsCode};
ghost use Rattle.td_verify.specs.Shape.{shape, shapes_of};
ghost use Rattle.td_verify.specs.Brackets.{opened};
ghost use Rattle.td_verify.specs.Contexts.{AreContexts};
ghost use Rattle.td_verify.specs.Verify.{IsSound, IsFirst, IsNamed, IsHandedBack};
ghost use Rattle.td_verify.specs.Findings.{IsDivided, AreFindings, HasSpace, HasPassed, IsFirstIn, IsRoomFor};

use crate::bracket::Innermost;
use crate::contexts::fill;
use crate::operands::{routine_at, tops};
use crate::routine::{Known, Summary, check_routine};
use crate::rule::{Breach, VerifyError};
use crate::shape::{Shape, shape_of};
use std::alloc::{AllocError, Global};
use std::marker::Model;
use td_ir::code::Code;
use td_ir::instructions::Instr;
use td_ir::tables::Parts;

/// What the verifier has found: what is open before each instruction, of each routine so far its depth, its weight and
/// whether it may take no byte, with room for all routines, and of each cell map one more than its greatest number.
#[derive(Drop)]
pub struct Findings {
    contexts: Vec<Innermost>,
    depths: Vec<u64>,
    weights: Vec<u64>,
    empties: Vec<bool>,
    tops: Vec<u64>,
}

/// Code whose instructions keep all rules. A contract sees its parts.
#[derive(Drop)]
pub struct Verified {
    code: Code,
}

impl Model for Verified {
    ghost use Rattle.td_ir.specs.declared.tables.Parts.{Parts};
    ghost use Rattle.td_verify.specs.Verify.{IsSound};

    ghost Value = { Parts };

    ghost view = { λ v. v.code };

    ghost invariant = { λ v. IsSound v.code };
}

impl Verified {
    /// The code.
    pub fn code(&self) -> &Code
        ensures same { result.now ≡ self.now }
        ensures sound { IsSound self.now }
    {
        &self.code
    }
}

fn shapes(alloc: Global, instructions: &[Instr]) -> Result<Vec<Shape>, AllocError>
    ensures { IfOk result (λ shapes. shapes.items ≡ map shape instructions.now) }
{
    let mut shapes = Vec::new(alloc);
    for at in 0..instructions.len() {
        shapes.push(shape_of(instructions[at]))?;
    }
    Ok(shapes)
}

// What is open before each instruction and at the end.
fn contexts(alloc: Global, shapes: &[Shape]) -> Result<Vec<Innermost>, AllocError>
    ensures length { IfOk result (λ contexts. length contexts.items ≡ length shapes.now + 1) }
    ensures contexts { IfOk result (λ contexts. AreContexts shapes.now contexts.items (length shapes.now + 1)) }
{
    let mut contexts = vec![in alloc; Innermost::Outside; shapes.len() + 1]?;
    fill(shapes, &mut contexts);
    Ok(contexts)
}

// Keeps the summary of the next routine, for which there is room.
fn note(findings: &mut Findings, summary: Summary)
    requires depth_room { length findings.old.depths.items < vec_capacity findings.old.depths }
    requires weight_room { length findings.old.weights.items < vec_capacity findings.old.weights }
    requires empty_room { length findings.old.empties.items < vec_capacity findings.old.empties }
    ensures contexts { findings.new.contexts.items ≡ findings.old.contexts.items }
    ensures tops { findings.new.tops.items ≡ findings.old.tops.items }
    ensures depths { findings.new.depths.items ≡ findings.old.depths.items ++ summary.depth ∷ [] }
    ensures weights { findings.new.weights.items ≡ findings.old.weights.items ++ summary.weight ∷ [] }
    ensures empties { findings.new.empties.items ≡ findings.old.empties.items ++ summary.empty ∷ [] }
    ensures depth_space { vec_capacity findings.new.depths ≡ vec_capacity findings.old.depths }
    ensures weight_space { vec_capacity findings.new.weights ≡ vec_capacity findings.old.weights }
    ensures empty_space { vec_capacity findings.new.empties ≡ vec_capacity findings.old.empties }
{
    findings.depths.push_reserved(summary.depth);
    findings.weights.push_reserved(summary.weight);
    findings.empties.push_reserved(summary.empty);
}

// Goes through routine `n` and keeps what it finds; answers where it ends.
fn pass(
    parts: &Parts,
    shapes: &[Shape],
    marks: &mut [bool],
    findings: &mut Findings,
    n: usize,
    from: usize,
) -> Result<usize, Breach>
    requires divided { IsDivided parts.now }
    requires routine { n < length parts.now.routines }
    requires from { from ≡ begin (lengths_of parts.now) n }
    requires shapes { shapes.now ≡ shapes_of parts.now }
    requires size { length marks.old ≡ length shapes.now }
    requires findings { AreFindings parts.now n findings.old }
    requires space { HasSpace parts.now findings.old }
    requires opens { opened shapes.now from ≡ Some [] }
    ensures size { length marks.new ≡ length marks.old }
    ensures space { OnOk result (HasSpace parts.now findings.new) }
    ensures passed { IfOk result (λ to. HasPassed parts.now n findings.new to) }
    ensures fails { IfErr result (λ e. IsFirstIn parts.now n e) }
{
    let end = from + routine_at(parts, n).length as usize;
    let known = Known {
        parts,
        shapes,
        contexts: &findings.contexts,
        depths: &findings.depths,
        weights: &findings.weights,
        empties: &findings.empties,
        tops: &findings.tops,
    };
    match check_routine(&known, marks, n, from, end) {
        Ok(summary) => {
            note(findings, summary);
            Ok(end)
        }
        Err(breach) => Err(breach),
    }
}

// Goes through all routines.
fn pass_all(
    parts: &Parts,
    shapes: &[Shape],
    marks: &mut [bool],
    findings: &mut Findings,
) -> Result<(), Breach>
    requires divided { IsDivided parts.now }
    requires shapes { shapes.now ≡ shapes_of parts.now }
    requires size { length marks.old ≡ length shapes.now }
    requires findings { AreFindings parts.now 0 findings.old }
    requires space { HasSpace parts.now findings.old }
    ensures sound { OnOk result (IsSound parts.now) }
    ensures breach { IfErr result (λ e. IsFirst parts.now e.rule e.at) }
{
    let mut from = 0;
    for n in 0..parts.routines.len() {
        match pass(parts, shapes, marks, findings, n, from) {
            Ok(to) => from = to,
            Err(breach) => return Err(breach),
        }
    }
    Ok(())
}

/// All that the verifier has beside the code: its shapes, room for marks, and for what is found.
#[derive(Drop)]
pub struct Room {
    shapes: Vec<Shape>,
    marks: Vec<bool>,
    findings: Findings,
}

// All memory that is taken to look at parts, with what is known of them before their first routine is looked at.
// `AllocError`: there was no memory for it.
fn room_for(alloc: Global, parts: &Parts) -> Result<Room, AllocError>
    ensures { IfOk result (λ room. IsRoomFor parts.now room) }
{
    let shapes = shapes(alloc, parts.instructions.as_slice())?;
    let contexts = contexts(alloc, &shapes)?;
    let tops = tops(alloc, parts)?;
    let marks = vec![in alloc; false; shapes.len()]?;
    let count = parts.routines.len();
    let findings = Findings {
        contexts,
        depths: Vec::with_capacity(alloc, count)?,
        weights: Vec::with_capacity(alloc, count)?,
        empties: Vec::with_capacity(alloc, count)?,
        tops,
    };
    Ok(Room {
        shapes,
        marks,
        findings,
    })
}

// Whether all instructions keep all rules; else the first that breaks one. What it needs beside the parts was taken before.
fn inspect(parts: &Parts, room: Room) -> Result<(), Breach>
    requires divided { IsDivided parts.now }
    requires room { IsRoomFor parts.now room }
    ensures sound { OnOk result (IsSound parts.now) }
    ensures breach { IfErr result (λ e. IsFirst parts.now e.rule e.at) }
{
    let Room {
        shapes,
        mut marks,
        mut findings,
    } = room;
    pass_all(parts, &shapes, &mut marks, &mut findings)
}

fn inspect_code(code: &Code, room: Room) -> Result<(), Breach>
    requires { IsRoomFor code.now room }
    ensures sound { OnOk result (IsSound code.now) }
    ensures breach { IfErr result (λ e. IsFirst code.now e.rule e.at) }
{
    inspect(code.parts(), room)
}

fn room_for_code(alloc: Global, code: &Code) -> Result<Room, AllocError>
    ensures { IfOk result (λ room. IsRoomFor code.now room) }
{
    room_for(alloc, code.parts())
}

// The answer to code, by room that was taken for it. Takes no memory, so it is never out of it.
fn answer(code: Code, room: Room) -> Result<Verified, (Code, VerifyError)>
    requires { IsRoomFor code room }
    ensures same { IfOk result (λ verified. verified ≡ code) }
    ensures sound { OnOk result (IsSound code) }
    ensures refused { IfErr result (λ refusal. IsNamed code refusal) }
{
    match inspect_code(&code, room) {
        Ok(()) => Ok(Verified { code }),
        Err(breach) => Err((code, VerifyError::Breaks(breach))),
    }
}

/// Accepts code exactly where each instruction keeps all rules. It takes time in proportion to the code, and memory for
/// each instruction, all of it before the first rule is looked at. `Breaks`: the first instruction that breaks a rule, with
/// the lowest rule that it breaks; the code is handed back. `NoMemory`: there was no memory to look at it; the code is
/// handed back.
pub fn verify(alloc: Global, code: Code) -> Result<Verified, (Code, VerifyError)>
    ensures same { IfOk result (λ verified. verified ≡ code) }
    ensures sound { OnOk result (IsSound code) }
    ensures refused { IfErr result (λ refusal. IsHandedBack code refusal) }
{
    match room_for_code(alloc, &code) {
        Ok(room) => answer(code, room),
        Err(_) => Err((code, VerifyError::NoMemory)),
    }
}

/// Verifies code that is known to keep all rules, as that of an admitted module is. `AllocError`: there was no memory.
pub fn verify_sound(alloc: Global, code: Code) -> Result<Verified, AllocError>
    requires { IsSound code }
    ensures { IfOk result (λ verified. verified ≡ code) }
{
    match verify(alloc, code) {
        Ok(verified) => Ok(verified),
        Err((_, VerifyError::NoMemory)) => Err(AllocError),
        Err((_, VerifyError::Breaks(_))) => unreachable!(),
    }
}
