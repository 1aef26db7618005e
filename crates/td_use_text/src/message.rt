//! From a message to its report.

ghost use Rattle.std.specs.Prelude.{◌≡◌, ◌<◌, ◌^◌, [], Err, length, take, IfOk, OnOk};
ghost use Rattle.td_ir.specs.Entries.{buffers_of};
ghost use Rattle.td_lower_means.specs.CodeRun.{IsCodeOf};
ghost use Rattle.td_code.specs.Compile.{DoesWhatItMeans};
ghost use Rattle.td_vm.specs.Frames.{IsArmed, outcome_in};
ghost use Rattle.td_use_text.specs.declared.message.MessageError.{MessageError};
ghost use Rattle.td_use_text.specs.Reports.{Begins, IsRunOf, Reports, FailsToReport};

use crate::text::Compiled;
use std::alloc::{AllocError, Global};
use td_core::module::Entry;
use td_core::outcome::Verdict;
use td_io::{Sink, WriteFault};
use td_job::words::fill_words;
use td_lower_means::laws::arguments_fit;
use td_report::outcome::OutcomeParts;
use td_report::report::report_of_parts;
use td_run::validation::validate_recorded;
use td_sched::laws::loads_are_planned;
use td_sched::planned::Planned;
use td_stream::copies::Buffer;
use td_stream::laws::{plain_carries, plain_message};
use td_stream::layout::Layout;
use td_stream::loads::Loads;
use td_verify::verify::Verified;
use td_vm::laws::fitting_cells_have_room;
use td_vm::validate::Frame;
use td_vm_step::tables::{entry_at, routine_at};
use thiserror::Error;

/// Why there is no report, or not all of it.
#[derive(Debug, Drop, Error)]
pub enum MessageError {
    #[error("out of memory")]
    NoMemory,
    #[error("the report couldn't be written")]
    Write,
}

impl From<AllocError> for MessageError {
    ghost use Rattle.std.specs.Prelude.{◌≡◌};
    ghost use Rattle.td_use_text.specs.declared.message.MessageError.TheVariants.{NoMemory};

    ghost from_gives = { λ _ e. e ≡ NoMemory };

    fn from(_: AllocError) -> MessageError {
        MessageError::NoMemory
    }
}

impl From<WriteFault> for MessageError {
    ghost use Rattle.std.specs.Prelude.{◌≡◌};
    ghost use Rattle.td_use_text.specs.declared.message.MessageError.TheVariants.{Write};

    ghost from_gives = { λ _ e. e ≡ Write };

    fn from(_: WriteFault) -> MessageError {
        MessageError::Write
    }
}

/// A verdict, and the loads on which it rests.
#[derive(Drop)]
pub struct Ran {
    pub verdict: Verdict,
    pub loads: Loads,
}

// Validates a message in words to which nobody stores. The frame is left with the trace and the cells.
fn validated(
    alloc: Global,
    compiled: &Compiled,
    entry: Entry,
    cells: &[u64],
    message: &[u8],
    frame: &mut Frame,
) -> Result<Ran, AllocError>
    requires code { IsCodeOf compiled.now.code compiled.now.module }
    requires means { DoesWhatItMeans compiled.now.code compiled.now.module }
    requires entry { entry.number < length compiled.now.module.entries }
    requires begins { Begins compiled.now.module entry cells.now }
    requires armed { IsArmed compiled.now.code frame.old }
    requires short { length message.now < 2 ^ 32 }
    ensures armed { IsArmed compiled.now.code frame.new }
    ensures run { IfOk result (λ ran. IsRunOf compiled.now.module entry cells.now message.now ran.loads.list
        (outcome_in frame.new (buffers_of compiled.now.code entry) ran.verdict)) }
{
    arguments_fit();
    fitting_cells_have_room();
    loads_are_planned();
    plain_message();
    plain_carries();
    let length = message.len() as u32;
    let layout = Layout::plain(length);
    let words = fill_words(alloc, message, layout.count())?;
    let mut planned = Planned::open(alloc, words.as_slice(), &[])?;
    let mut loads = Loads::with_room(alloc, layout.count())?;
    frame.set_cells(cells);
    let verdict = validate_recorded(
        &compiled.code,
        entry,
        &[],
        &layout,
        frame,
        &mut planned,
        &mut loads,
    );
    Ok(Ran { verdict, loads })
}

// What the entry point's copy buffers hold: they are the frame's first ones, as many as the entry point has.
fn copies_of<'a>(code: &Verified, entry: Entry, frame: &'a Frame) -> &'a [Buffer]
    requires { entry.number < length code.now.entries }
    ensures { result.now ≡ take (buffers_of code.now entry) frame.now.copies }
{
    let parts = code.code().parts();
    let point = entry_at(parts, entry.number as usize);
    let count = routine_at(parts, point.routine as usize).buffers.len();
    let copies = frame.copies();
    if count < copies.len() {
        &copies[..count]
    } else {
        copies
    }
}

/// Validates a message from an entry point on, and writes the report. The frame was armed for the code, and serves the next message.
/// `NoMemory`: there was no memory, and nothing was written; `Write`: a write failed, and a prefix of the report was written.
pub fn report_message<O: Sink>(
    alloc: Global,
    compiled: &Compiled,
    entry: Entry,
    cells: &[u64],
    message: &[u8],
    frame: &mut Frame,
    out: &mut O,
) -> Result<(), MessageError>
    requires code { IsCodeOf compiled.now.code compiled.now.module }
    requires means { DoesWhatItMeans compiled.now.code compiled.now.module }
    requires entry { entry.number < length compiled.now.module.entries }
    requires begins { Begins compiled.now.module entry cells.now }
    requires armed { IsArmed compiled.now.code frame.old }
    requires short { length message.now < 2 ^ 32 }
    ensures armed { IsArmed compiled.now.code frame.new }
    ensures written { OnOk result (Reports compiled.now.module entry cells.now message.now (O.state out.old) (O.state out.new)) }
    ensures failed { result ≡ Err MessageError.Write → FailsToReport compiled.now.module entry cells.now message.now (O.state out.old) (O.state out.new) }
    ensures nothing { result ≡ Err MessageError.NoMemory → O.state out.new ≡ O.state out.old }
{
    arguments_fit();
    let ran = validated(alloc, compiled, entry, cells, message, frame)?;
    let outcome = OutcomeParts {
        verdict: ran.verdict,
        trace: frame.trace(),
        cells: frame.cells(),
        copies: copies_of(&compiled.code, entry, frame),
    };
    report_of_parts(
        &outcome,
        &compiled.module,
        entry,
        ran.loads.as_slice(),
        None,
        None,
        out,
    )?;
    Ok(())
}
