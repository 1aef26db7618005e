//! Validates messages by verified code, in room that was taken before.

ghost use Rattle.std.specs.Prelude.{◌≡◌, ℕ, ◌<◌, ◌≤◌, List, [], length as size_of, map, take, IfOk, vec_capacity};
ghost use Rattle.td_ir.specs.declared.tables.Parts as tables;
ghost use Rattle.td_stream.specs.Copies.{empty_with};
ghost use Rattle.td_ir.specs.Entries.{Fits, buffers_of, opened_by};
ghost use Rattle.td_ir.specs.Run.{run};
ghost use Rattle.td_ir.specs.WellFormed.{IsCode};
ghost use Rattle.td_stream.specs.Layouts.{count_in};
ghost use Rattle.td_stream.specs.Loads.{IsFetchedOnce};
ghost use Rattle.td_vm.specs.Frames.{AreBegins, IsArmed, IsRestEmpty, outcome_in};
ghost use Rattle.td_verify_runs.specs.Stretches.{IsRunnable};
ghost use Rattle.td_vm.specs.Need.{most_buffers, most_need, most_rooms, registers as registers_in, cells as cells_in, level as levels_in};
ghost use Rattle.td_vm.specs.Outcomes.{IsCodeRun};

use crate::arm::{
    NeedKind, begins_of, buffer_count, most_buffers_of, most_cells, need_of, rooms_for,
};
use crate::buffers::{buffers_for, empty_all};
use crate::level::{Call, Spare};
use crate::message::run_message;
use crate::outcome::held_by_first;
use std::alloc::{AllocError, Global};
use std::marker::Model;
use std::sync::ledger::Ledger;
use td_core::module::{Entry, NameId};
use td_core::outcome::{Outcome, Reason, Spot, TraceFrame, Verdict};
use td_ir::tables::Parts;
use td_num::items::Items;
use td_stream::copies::Buffer;
use td_stream::layout::Layout;
use td_stream::words::Words;
use td_verify::laws::sound_code_is_safe;
use td_verify::verify::Verified;
use td_vm_step::activation::{CodeView, TraceRoom};
use td_vm_step::slate::Slate;
use td_vm_step::steps::{Counter, Steps};
use td_vm_step::tables::entry_at;

/// Room for validations by one code, with the cells that the next one begins with, and those, the trace and the copies that the
/// last one left. A contract sees how much room there is, how much memory its lists have, the cells, the trace and the buffers of
/// copies.
#[derive(Drop)]
pub struct Frame {
    begins: Vec<usize>,
    registers: Vec<u64>,
    places: Vec<usize>,
    cells: Vec<u64>,
    // How many of the cells are in use, behind which are those of the buffers.
    count: usize,
    trace: TraceRoom,
    copies: Vec<Buffer>,
    // No lists, and memory for one of what each buffer holds, when the outcome is taken.
    kept: Vec<Items<u8>>,
}

impl Model for Frame {
    ghost use Rattle.std.specs.Prelude.{◌≡◌, ◌≤◌, [], length, take, vec_capacity};
    ghost use Rattle.td_vm.specs.Frames.{FrameView};
    ghost use Rattle.td_vm.specs.Exits.{frames_of};

    ghost Value = { FrameView };

    ghost view = { λ f. record {
      begins = f.begins.items;
      register_room = length f.registers.items;
      place_room = length f.places.items;
      trace_room = length f.trace.frames.items;
      cell_room = length f.cells.items;
      memory = record {
        registers = vec_capacity f.registers;
        places = vec_capacity f.places;
        cells = vec_capacity f.cells;
        trace = vec_capacity f.trace.frames;
        begins = vec_capacity f.begins;
        copies = vec_capacity f.copies;
        kept = vec_capacity f.kept;
      };
      cells = take f.count f.cells.items;
      trace = frames_of f.trace;
      copies = f.copies.items;
    } };

    ghost invariant = { λ f. (f.count ≤ length f.cells.items) × (f.trace.count ≤ length f.trace.frames.items)
        × (f.kept.items ≡ []) × (length f.copies.items ≤ vec_capacity f.kept) };
}

// The parts of verified code, which can be run.
fn runnable(code: &Verified) -> &Parts
    ensures same { result.now ≡ code.now }
    ensures runnable { IsRunnable result.now }
{
    sound_code_is_safe();
    code.code().parts()
}

// A list of so many equal elements, with memory for just these. `AllocError`: there was none.
fn filled<T: Copy>(alloc: Global, element: T, count: usize) -> Result<Vec<T>, AllocError>
    ensures count { IfOk result (λ list. size_of list.items ≡ count) }
    ensures memory { IfOk result (λ list. vec_capacity list ≡ count) }
{
    let mut list = Vec::with_capacity(alloc, count)?;
    for _ in 0..count {
        list.push_reserved(element);
    }
    Ok(list)
}

// What the chains of calls of this code need, each of the kinds.
#[derive(Clone, Copy)]
struct Needs {
    registers: u64,
    places: u64,
    levels: u64,
}

// What the chains of calls need, by where each routine begins. `AllocError`: there was no memory for a table of them.
fn needs_of(alloc: Global, parts: &Parts, begins: &[usize]) -> Result<Needs, AllocError>
    requires runnable { IsRunnable parts.now }
    requires begins { AreBegins parts.now begins.now }
    ensures registers { IfOk result (λ needs. needs.registers ≡ most_need (registers_in parts.now) parts.now) }
    ensures places { IfOk result (λ needs. needs.places ≡ most_need (cells_in parts.now) parts.now) }
    ensures levels { IfOk result (λ needs. needs.levels ≡ most_need levels_in parts.now) }
{
    let registers = need_of(alloc, parts, begins, NeedKind::Registers)?;
    let places = need_of(alloc, parts, begins, NeedKind::Cells)?;
    let levels = need_of(alloc, parts, begins, NeedKind::Levels)?;
    Ok(Needs {
        registers,
        places,
        levels,
    })
}

// A trace of no frames, and room and memory for just so many. `AllocError`: there was none.
fn trace_for(alloc: Global, levels: u64) -> Result<TraceRoom, AllocError>
    ensures none { IfOk result (λ trace. trace.count ≡ 0) }
    ensures room { IfOk result (λ trace. size_of trace.frames.items ≡ levels) }
    ensures memory { IfOk result (λ trace. vec_capacity trace.frames ≡ levels) }
{
    let empty = TraceFrame {
        ty: NameId { number: 0 },
        field: Spot::Where,
        reason: Reason::NotEnough,
        start: 0,
    };
    let frames = filled(alloc, empty, levels as usize)?;
    Ok(TraceRoom { frames, count: 0 })
}

// The lists of numbers of a frame, and its trace.
#[derive(Drop)]
struct Lists {
    registers: Vec<u64>,
    places: Vec<usize>,
    cells: Vec<u64>,
    trace: TraceRoom,
}

// Lists that are as long as is needed, with so many cells, and memory for just that; and a trace of no frames. `AllocError`: there was no
// memory for them.
fn lists_for(alloc: Global, needs: Needs, cells: u64) -> Result<Lists, AllocError>
    ensures registers { IfOk result (λ lists. size_of lists.registers.items ≡ needs.registers) }
    ensures places { IfOk result (λ lists. size_of lists.places.items ≡ needs.places) }
    ensures cells { IfOk result (λ lists. size_of lists.cells.items ≡ cells) }
    ensures register_memory { IfOk result (λ lists. vec_capacity lists.registers ≡ needs.registers) }
    ensures place_memory { IfOk result (λ lists. vec_capacity lists.places ≡ needs.places) }
    ensures cell_memory { IfOk result (λ lists. vec_capacity lists.cells ≡ cells) }
    ensures frames { IfOk result (λ lists. lists.trace.count ≡ 0) }
    ensures levels { IfOk result (λ lists. size_of lists.trace.frames.items ≡ needs.levels) }
    ensures level_memory { IfOk result (λ lists. vec_capacity lists.trace.frames ≡ needs.levels) }
{
    let registers = filled(alloc, 0, needs.registers as usize)?;
    let places = filled(alloc, 0, needs.places as usize)?;
    let cells = filled(alloc, 0, cells as usize)?;
    let trace = trace_for(alloc, needs.levels)?;
    Ok(Lists {
        registers,
        places,
        cells,
        trace,
    })
}

// Buffers for copies, and no lists, with memory for one of what each of them holds.
#[derive(Drop)]
struct CopyRoom {
    copies: Vec<Buffer>,
    kept: Vec<Items<u8>>,
}

// Empty buffers, place by place as large as any entry point's, and memory for just as many lists. `AllocError`: there was no memory for
// them.
fn copies_for(alloc: Global, parts: &Parts) -> Result<CopyRoom, AllocError>
    requires { IsCode parts.now }
    ensures copies { IfOk result (λ room. room.copies.items ≡ map empty_with (most_rooms parts.now)) }
    ensures copy_memory { IfOk result (λ room. vec_capacity room.copies ≡ most_buffers parts.now) }
    ensures none { IfOk result (λ room. room.kept.items ≡ []) }
    ensures memory { IfOk result (λ room. vec_capacity room.kept ≡ most_buffers parts.now) }
    ensures few { IfOk result (λ room. size_of room.copies.items ≤ vec_capacity room.kept) }
{
    let rooms = rooms_for(alloc, parts)?;
    let kept = Vec::with_capacity(alloc, most_buffers_of(parts) as usize)?;
    let copies = buffers_for(alloc, &rooms)?;
    Ok(CopyRoom { copies, kept })
}

// Puts values at the front of the cells.
fn fill(cells: &mut [u64], values: &[u64])
    requires { size_of values.now ≤ size_of cells.old }
    ensures { take (size_of values.now) cells.new ≡ values.now }
{
    let (mine, _) = cells.split_at_mut(values.len());
    mine.copy_from_slice(values);
}

// The elements at the front of a list.
fn first_of<T: Copy>(mut elements: Vec<T>, count: usize) -> Items<T>
    requires { count ≤ size_of elements.items }
    ensures { result ≡ take count elements.items }
{
    elements.truncate(count);
    Items::of(elements)
}

impl Frame {
    /// Room for all validations by this code: the registers and the places of cells of the chain of calls that needs most of
    /// each, a frame for each level of the deepest, the cells of the entry point that has most, and buffers for copies, place by
    /// place as large as any entry point's. It has no cells, an empty trace and empty buffers. `AllocError`: there was no memory for
    /// it.
    ///
    /// Frames for two threads that validate by the same code:
    ///
    /// ```
    /// use std::alloc::{AllocError, Global};
    /// use td_verify::Verified;
    /// use td_vm::Frame;
    ///
    /// fn for_two(alloc: Global, code: &Verified) -> Result<(Frame, Frame), AllocError> {
    ///     Ok((Frame::arm(alloc, code)?, Frame::arm(alloc, code)?))
    /// }
    /// ```
    pub fn arm(alloc: Global, code: &Verified) -> Result<Frame, AllocError>
        ensures armed { IfOk result (λ frame. IsArmed code.now frame) }
        ensures cells { IfOk result (λ frame. frame.cells ≡ []) }
        ensures trace { IfOk result (λ frame. frame.trace ≡ []) }
        ensures copies { IfOk result (λ frame. frame.copies ≡ map empty_with (most_rooms code.now)) }
    {
        let parts = runnable(code);
        let begins = begins_of(alloc, parts)?;
        let needs = needs_of(alloc, parts, &begins)?;
        let lists = lists_for(alloc, needs, most_cells(parts))?;
        match copies_for(alloc, parts) {
            Ok(room) => Ok(Frame {
                begins,
                registers: lists.registers,
                places: lists.places,
                cells: lists.cells,
                count: 0,
                trace: lists.trace,
                copies: room.copies,
                kept: room.kept,
            }),
            Err(error) => {
                // Let go by a call: what has many parts is so in one step.
                drop(lists);
                Err(error)
            }
        }
    }

    /// The cells with which the next validation begins, no more than some entry point of the code has. Takes no memory.
    ///
    /// A frame whose cells begin so, or none where they don't fit:
    ///
    /// ```
    /// use std::alloc::{AllocError, Global};
    /// use td_core::Entry;
    /// use td_ir::fits;
    /// use td_verify::Verified;
    /// use td_vm::Frame;
    /// use td_vm::laws::fitting_cells_have_room;
    ///
    /// fn begun(alloc: Global, code: &Verified, entry: Entry, args: &[u64], cells: &[u64]) -> Result<Option<Frame>, AllocError> {
    ///     if !fits(code.code(), entry, args, cells) {
    ///         return Ok(None);
    ///     }
    ///     fitting_cells_have_room();
    ///     let mut frame = Frame::arm(alloc, code)?;
    ///     frame.set_cells(cells);
    ///     Ok(Some(frame))
    /// }
    /// ```
    pub fn set_cells(&mut self, values: &[u64])
        requires { size_of values.now ≤ self.old.cell_room }
        ensures cells { self.new.cells ≡ values.now }
        ensures trace { self.new.trace ≡ self.old.trace }
        ensures copies { self.new.copies ≡ self.old.copies }
        ensures armed { (c : tables.Parts) → IsArmed c self.old → IsArmed c self.new }
    {
        fill(self.cells.as_mut_slice(), values);
        self.count = values.len();
    }

    /// The cells as they were set, or as the last validation left them.
    ///
    /// The first number that a message delivered; none where the entry point has no cells:
    ///
    /// ```
    /// use td_vm::Frame;
    ///
    /// fn first_cell(frame: &Frame) -> Option<u64> {
    ///     frame.cells().first().copied()
    /// }
    /// ```
    pub fn cells(&self) -> &[u64]
        ensures { result.now ≡ self.now.cells }
    {
        &self.cells[..self.count]
    }

    /// The frames of the last validation's failure, the innermost first; none where it accepted. There are no more than the
    /// frame has room for.
    ///
    /// The byte at which the innermost field that failed began; none where the message was accepted:
    ///
    /// ```
    /// use td_vm::Frame;
    ///
    /// fn failed_at(frame: &Frame) -> Option<u32> {
    ///     Some(frame.trace().first()?.start)
    /// }
    /// ```
    pub fn trace(&self) -> &[TraceFrame]
        ensures frames { result.now ≡ self.now.trace }
        ensures room { size_of result.now ≤ self.now.trace_room }
    {
        &self.trace.frames[..self.trace.count]
    }

    /// How many frames of a failure there is room for: as many as any failure has.
    pub fn trace_room(&self) -> usize
        ensures { result ≡ self.now.trace_room }
    {
        self.trace.frames.len()
    }

    /// What was copied to the buffers: those of the last validation's entry point are the first ones, as many as it has.
    ///
    /// The bytes of the first copy buffer; none where no entry point of the code has one:
    ///
    /// ```
    /// use td_vm::Frame;
    ///
    /// fn first_copy(frame: &Frame) -> Option<&[u8]> {
    ///     Some(frame.copies().first()?.as_slice())
    /// }
    /// ```
    pub fn copies(&self) -> &[Buffer]
        ensures { result.now ≡ self.now.copies }
    {
        self.copies.as_slice()
    }

    /// The outcome of the last validation, which was by this code from this entry point and had this verdict: with the frame's trace
    /// and cells, and what the entry point's buffers hold. Takes no memory.
    ///
    /// A single validation, and all that came of it:
    ///
    /// ```
    /// use std::alloc::{AllocError, Global};
    /// use td_core::{Entry, Outcome};
    /// use td_run::validate_compiled;
    /// use td_stream::{Layout, Words};
    /// use td_verify::Verified;
    /// use td_vm::Frame;
    ///
    /// fn outcome<W: Words>(alloc: Global, code: &Verified, entry: Entry, length: u32, words: &mut W) -> Result<Outcome, AllocError> {
    ///     let mut frame = Frame::arm(alloc, code)?;
    ///     let verdict = validate_compiled(code, entry, &[], &Layout::plain(length), &mut frame, words);
    ///     Ok(frame.into_outcome(code, entry, verdict))
    /// }
    /// ```
    pub fn into_outcome(self, code: &Verified, entry: Entry, verdict: Verdict) -> Outcome
        requires armed { IsArmed code.now self }
        requires there { entry.number < size_of code.now.entries }
        ensures { result ≡ outcome_in self (buffers_of code.now entry) verdict }
    {
        let buffers = buffer_count(runnable(code), entry);
        let most = self.trace.count;
        let count = self.count;
        Outcome {
            verdict,
            trace: first_of(self.trace.frames, most),
            cells: first_of(self.cells, count),
            copies: held_by_first(self.copies, self.kept, buffers),
        }
    }
}

/// Validates a message that lies so in words of which none was loaded, from an entry point of verified code on. The
/// frame was armed for this code, and the arguments and the frame's cells fit the entry point (`td_ir::entries::fits`). It
/// is handed no allocator and nothing to wait by. Words are loaded only where a byte of them is looked at, in rising order, each at
/// most once; the verdict, and the frame's trace and cells, are those of `run` on each message that carries these loads, and
/// so are the count of steps and, as many as the entry point has, the frame's copies. The buffers behind these are empty.
pub fn validate<W: Words, L: Ledger, C: Counter>(
    code: &Verified,
    entry: Entry,
    args: &[u64],
    layout: &Layout,
    frame: &mut Frame,
    words: &mut W,
    steps: &mut Steps<L, C>,
) -> Verdict
    requires armed { IsArmed code.now frame.old }
    requires fits { Fits code.now entry args.now frame.old.cells }
    requires room { count_in layout.now ≤ W.size words.old }
    requires fresh { W.loads words.old ≡ [] }
    ensures reaches { W.reaches words.old words.new }
    ensures fetched { IsFetchedOnce layout.now (W.loads words.new) (λ (b : List ℕ).
        IsCodeRun layout.now (size_of frame.old.cells) b (W.loads words.new) (run code.now entry args.now (opened_by code.now entry frame.old.cells) b)
        (outcome_in frame.new (buffers_of code.now entry) result) steps.old steps.new) }
    ensures cell_count { size_of frame.new.cells ≡ size_of frame.old.cells }
    ensures rest { IsRestEmpty code.now (buffers_of code.now entry) frame.new }
    ensures armed { IsArmed code.now frame.new }
{
    let parts = runnable(code);
    let point = entry_at(parts, entry.number as usize);
    let view = CodeView {
        parts,
        begins: frame.begins.as_slice(),
    };
    let call = Call {
        code: view,
        n: point.routine as usize,
        args,
    };
    let copies = frame.copies.as_mut_slice();
    empty_all(copies);
    let places = frame.places.as_mut_slice();
    let registers = frame.registers.as_mut_slice();
    let mut spare = Spare { places, registers };
    let cells = frame.cells.as_mut_slice();
    let trace = &mut frame.trace;
    let mut slate = Slate {
        cells,
        copies,
        trace,
    };
    run_message(&call, layout, &mut spare, &mut slate, words, steps)
}
