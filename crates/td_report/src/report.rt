//! The report of a run.

ghost use Rattle.std.specs.Prelude.{◌≡◌, ◌<◌, ◌++◌, true, false, Some, None, flat_map, map, option_map, codes, decimal};
ghost use Rattle.std.specs.List.{All};
ghost use Rattle.td_stream.specs.Layouts.{count_in, IsNumberOf};
ghost use Rattle.td_core.specs.Entries.{entry_definition};
ghost use Rattle.td_io.specs.States.{Writes};
ghost use Rattle.td_report.specs.Paged.{Waits};
ghost use Rattle.td_report.specs.Report.{report, reason_word, spot_word, verdict_line, frame_line, frame_lines, entry_cells, with_values, cell_line, load_line};

use crate::copies::{CopyBuffer, buffers_of, write_copies};
use crate::hexadecimal::digits_of;
use crate::outcome::OutcomeParts;
use crate::paged::hand_on;
use crate::pieces::write_pieces;
use crate::written::write_written;
use itoa::Buffer;
use td_core::entries::{entry_definition, name_pieces};
use td_core::full_name::NamePieces;
use td_core::module::{Cell, Entry, Module};
use td_core::outcome::{Outcome, Reason, Spot, TraceFrame, Verdict};
use td_io::{Page, Sink, WriteFault, write_all};
use td_stream::layout::Layout;
use td_stream::load::Load;
use td_stream::loads::Loads;

fn spot_of(m: &Module, spot: Spot) -> NamePieces<'_>
    ensures { spot_word m.now spot ≡ result.part.now ++ result.dot.now ++ result.own.now }
{
    match spot {
        Spot::Field(name) => name_pieces(m, name),
        Spot::Where => keyword(b"where"),
        Spot::Switch => keyword(b"switch"),
    }
}

fn keyword(word: &[u8]) -> NamePieces<'_>
    ensures { word.now ≡ result.part.now ++ result.dot.now ++ result.own.now }
{
    NamePieces {
        part: b"",
        dot: b"",
        own: word,
    }
}

fn word_of(reason: Reason) -> &'static [u8]
    ensures { result.now ≡ reason_word reason }
{
    match reason {
        Reason::NotEnough => b"notenough",
        Reason::Constraint => b"constraint",
        Reason::Impossible => b"impossible",
        Reason::ListSize => b"listsize",
        Reason::Action => b"action",
        Reason::Padding => b"padding",
    }
}

#[tactic(auto, unfolding(crate::specs::Report::verdict_line))]
fn write_verdict<O: Sink>(out: &mut O, verdict: Verdict) -> Result<(), WriteFault>
    ensures { Writes (O.state out.old) (O.state out.new) (verdict_line verdict) result }
{
    let mut buffer = Buffer::new();
    match verdict {
        Verdict::Accept { pos } => {
            write_pieces(out, &[b"accept ", buffer.format(pos).as_bytes(), b"\n"])
        }
        Verdict::Reject { reason, pos } => {
            write_pieces(
                out,
                &[
                    b"reject ",
                    word_of(reason),
                    b" ",
                    buffer.format(pos).as_bytes(),
                    b"\n",
                ],
            )
        }
    }
}

#[tactic(auto, unfolding(crate::specs::Report::frame_line))]
fn write_frame<O: Sink>(out: &mut O, m: &Module, frame: TraceFrame) -> Result<(), WriteFault>
    ensures { Writes (O.state out.old) (O.state out.new) (frame_line m.now frame) result }
{
    let mut buffer = Buffer::new();
    let start = buffer.format(frame.start).as_bytes();
    let ty = name_pieces(m, frame.ty);
    let field = spot_of(m, frame.field);
    write_pieces(
        out,
        &[
            b"frame ", ty.part, ty.dot, ty.own, b".", field.part, field.dot, field.own, b" ",
            start, b"\n",
        ],
    )
}

fn write_frames<O: Sink>(out: &mut O, m: &Module, frames: &[TraceFrame]) -> Result<(), WriteFault>
    ensures { Writes (O.state out.old) (O.state out.new) (flat_map (frame_line m.now) frames.now) result }
{
    for place in 0..frames.len() {
        write_frame(out, m, frames[place])?;
    }
    Ok(())
}

fn write_trace<O: Sink>(
    out: &mut O,
    m: &Module,
    verdict: Verdict,
    trace: &[TraceFrame],
) -> Result<(), WriteFault>
    ensures { Writes (O.state out.old) (O.state out.new) (frame_lines m.now verdict trace.now) result }
{
    match verdict {
        Verdict::Accept { .. } => Ok(()),
        Verdict::Reject { .. } => write_frames(out, m, trace),
    }
}

/// The cells of an entry point; none where the module has no such entry point.
fn cells_of(m: &Module, entry: Entry) -> &[Cell]
    ensures { result.now ≡ entry_cells (entry_definition m.now entry.number) }
{
    match entry_definition(m, entry) {
        None => &[],
        Some(definition) => definition.cells.as_slice(),
    }
}

#[tactic(auto, unfolding(crate::specs::Report::cell_line))]
fn write_cell<O: Sink>(out: &mut O, m: &Module, cell: Cell, value: u64) -> Result<(), WriteFault>
    ensures { Writes (O.state out.old) (O.state out.new) (cell_line m.now (record { cell = cell; value = value })) result }
{
    let mut buffer = Buffer::new();
    let value = buffer.format(value).as_bytes();
    let name = name_pieces(m, cell.name);
    match cell.field {
        None => {
            write_pieces(
                out,
                &[b"out ", name.part, name.dot, name.own, b" ", value, b"\n"],
            )
        }
        Some(field) => {
            let field = name_pieces(m, field);
            write_pieces(
                out,
                &[
                    b"out ", name.part, name.dot, name.own, b".", field.part, field.dot, field.own,
                    b" ", value, b"\n",
                ],
            )
        }
    }
}

fn write_cells<O: Sink>(
    out: &mut O,
    m: &Module,
    cells: &[Cell],
    values: &[u64],
) -> Result<(), WriteFault>
    ensures { Writes (O.state out.old) (O.state out.new) (flat_map (cell_line m.now) (with_values cells.now values.now)) result }
{
    for (index, cell) in cells.iter().enumerate() {
        let Some(value) = values.get(index) else {
            break;
        };
        write_cell(out, m, *cell, *value)?;
    }
    Ok(())
}

// A load of a message word that has no layout.
#[tactic(auto, unfolding(crate::specs::Report::load_line))]
fn write_plain<O: Sink>(out: &mut O, load: Load) -> Result<(), WriteFault>
    ensures { Writes (O.state out.old) (O.state out.new) (load_line None load) result }
{
    let mut buffer = Buffer::new();
    let word = buffer.format(load.word).as_bytes();
    write_pieces(out, &[b"load ", word, b" ", &digits_of(load.value), b"\n"])
}

// A load of a message word of a layout.
#[tactic(auto, unfolding(crate::specs::Report::load_line))]
fn write_laid<O: Sink>(out: &mut O, layout: &Layout, load: Load) -> Result<(), WriteFault>
    requires { load.word < count_in layout.now }
    ensures { Writes (O.state out.old) (O.state out.new) (load_line (Some layout.now) load) result }
{
    let (stretch, word) = layout.word(load.word);
    let mut first = Buffer::new();
    let mut second = Buffer::new();
    let stretch = first.format(stretch).as_bytes();
    let word = second.format(word).as_bytes();
    write_pieces(
        out,
        &[
            b"load ",
            stretch,
            b" ",
            word,
            b" ",
            &digits_of(load.value),
            b"\n",
        ],
    )
}

fn write_load<O: Sink>(out: &mut O, load: Load, layout: Option<&Layout>) -> Result<(), WriteFault>
    requires { IsNumberOf (option_map (λ l. l.now) layout) load.word }
    ensures { Writes (O.state out.old) (O.state out.new) (load_line (option_map (λ l. l.now) layout.entry) load) result }
{
    match layout {
        None => write_plain(out, load),
        Some(layout) => write_laid(out, layout, load),
    }
}

// Writes a load to a page, and says whether there was room for its line; where there was none the page is as before.
fn fits_page(page: &mut Page, load: Load, layout: Option<&Layout>) -> bool
    requires { IsNumberOf (option_map (λ l. l.now) layout) load.word }
    ensures fits { result ≡ true → page.new.written ≡ page.old.written ++ load_line (option_map (λ l. l.now) layout.entry) load }
    ensures kept { result ≡ false → page.new.written ≡ page.old.written }
{
    let count = page.len();
    match write_load(page, load, layout) {
        Ok(()) => true,
        Err(_) => {
            page.cut(count);
            false
        }
    }
}

// Puts a load behind those of the page; where the page has no room for its line, those go out first.
fn put_load<O: Sink>(
    out: &mut O,
    page: &mut Page,
    load: Load,
    layout: Option<&Layout>,
) -> Result<(), WriteFault>
    requires { IsNumberOf (option_map (λ l. l.now) layout) load.word }
    ensures { Waits (O.state out.old) (O.state out.new) page.old.written page.new.written (load_line (option_map (λ l. l.now) layout.entry) load) result }
{
    if fits_page(page, load, layout) {
        return Ok(());
    }
    hand_on(out, page)?;
    if fits_page(page, load, layout) {
        return Ok(());
    }
    write_load(out, load, layout)
}

// The lines of loads, which are gathered in a page, as there may be many.
fn write_loads<O: Sink>(
    out: &mut O,
    loads: &[Load],
    layout: Option<&Layout>,
) -> Result<(), WriteFault>
    requires { All (λ l. IsNumberOf (option_map (λ l. l.now) layout) l.word) loads.now }
    ensures { Writes (O.state out.old) (O.state out.new) (flat_map (load_line (option_map (λ l. l.now) layout.entry)) loads.now) result }
{
    let mut page = Page::blank();
    for load in loads {
        put_load(out, &mut page, *load, layout)?;
    }
    write_all(out, page.written())
}

/// Writes the report of a run by the parts of its outcome: the bytes that were written, where the message is made of a value, how it
/// ended, the frames of its failure by the names of the module, the cells of the entry point, what its copy buffers hold, and the loads.
/// Takes no memory.
///
/// `WriteFault`: a write failed. What went out is a prefix of the report.
///
/// The lines of a verdict and its frames, of an entry point without cells and copy buffers, without those of its loads:
///
/// ```
/// use td_core::{Entry, Module, Verdict};
/// use td_io::{Sink, WriteFault};
/// use td_report::{OutcomeParts, report_of_parts};
/// use td_stream::Buffer;
/// use td_vm::Frame;
///
/// fn report<O: Sink>(m: &Module, entry: Entry, verdict: Verdict, frame: &Frame, out: &mut O) -> Result<(), WriteFault> {
///     let none: &[Buffer] = &[];
///     let outcome = OutcomeParts { verdict, trace: frame.trace(), cells: frame.cells(), copies: none };
///     report_of_parts(&outcome, m, entry, &[], None, None, out)
/// }
/// ```
pub fn report_of_parts<O: Sink, B: CopyBuffer>(
    outcome: &OutcomeParts<'_, B>,
    m: &Module,
    entry: Entry,
    loads: &[Load],
    layout: Option<&Layout>,
    written: Option<&[u8]>,
    out: &mut O,
) -> Result<(), WriteFault>
    requires { All (λ l. IsNumberOf (option_map (λ l. l.now) layout) l.word) loads.now }
    ensures { Writes (O.state out.old) (O.state out.new) (report (record { verdict = outcome.now.verdict; trace = outcome.now.trace.now; cells = outcome.now.cells.now; copies = map B.held outcome.now.copies.now }) m.now entry loads.now (option_map (λ l. l.now) layout.entry) (option_map (λ w. w.now) written.entry)) result }
{
    write_written(out, written)?;
    write_verdict(out, outcome.verdict)?;
    write_trace(out, m, outcome.verdict, outcome.trace)?;
    write_cells(out, m, cells_of(m, entry), outcome.cells)?;
    write_copies(out, m, buffers_of(m, entry), outcome.copies)?;
    write_loads(out, loads, layout)
}

// Writes the report of a run by its parts.
fn report_by_line<O: Sink>(
    outcome: &Outcome,
    m: &Module,
    entry: Entry,
    loads: &Loads,
    layout: Option<&Layout>,
    written: Option<&[u8]>,
    out: &mut O,
) -> Result<(), WriteFault>
    requires { All (λ l. IsNumberOf (option_map (λ l. l.now) layout) l.word) loads.now.list }
    ensures { Writes (O.state out.old) (O.state out.new) (report outcome.now m.now entry loads.now.list (option_map (λ l. l.now) layout.entry) (option_map (λ w. w.now) written.entry)) result }
{
    let parts = OutcomeParts {
        verdict: outcome.verdict,
        trace: outcome.trace.as_slice(),
        cells: outcome.cells.as_slice(),
        copies: outcome.copies.as_slice(),
    };
    report_of_parts(&parts, m, entry, loads.as_slice(), layout, written, out)
}

/// Writes the report of a run: the bytes that were written, where the message is made of a value, how it ended, the frames of
/// its failure by the names of the module, the cells of the entry point, what its copy buffers hold, and the loads. A report of at
/// most 4,096 bytes goes out by one write; of a longer one the loads, and the digits of bytes, are gathered in pages of as many
/// bytes. Takes no memory.
///
/// `WriteFault`: a write failed. What went out is a prefix of the report.
pub fn run_report<O: Sink>(
    outcome: &Outcome,
    m: &Module,
    entry: Entry,
    loads: &Loads,
    layout: Option<&Layout>,
    written: Option<&[u8]>,
    out: &mut O,
) -> Result<(), WriteFault>
    requires { All (λ l. IsNumberOf (option_map (λ l. l.now) layout) l.word) loads.now.list }
    ensures { Writes (O.state out.old) (O.state out.new) (report outcome.now m.now entry loads.now.list (option_map (λ l. l.now) layout.entry) (option_map (λ w. w.now) written.entry)) result }
{
    let mut page = Page::blank();
    match report_by_line(outcome, m, entry, loads, layout, written, &mut page) {
        Ok(()) => write_all(out, page.written()),
        Err(_) => report_by_line(outcome, m, entry, loads, layout, written, out),
    }
}
