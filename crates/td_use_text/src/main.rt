//! A program over td's library: it compiles the text of a format, arp.3d, and validates messages from standard input, one in
//! hexadecimal digits a line, by that code. Of each it writes the report that `td run` writes.
//!
//! `main` has no clause; what is written of a message is what [`message::report_message`] says.
#![tactic(auto)]

mod message;
mod text;

ghost use Rattle.std.specs.Prelude.{◌<◌, length, IfOk};
ghost use Rattle.td_lower_means.specs.CodeRun.{IsCodeOf};
ghost use Rattle.td_code.specs.Compile.{DoesWhatItMeans};
ghost use Rattle.td_vm.specs.Frames.{IsArmed};
ghost use Rattle.td_use_text.specs.Reports.{Begins};

use anyhow::{Result, bail, ensure};
use message::report_message;
use std::alloc::Global;
use std::fs;
use std::io::{BufRead, BufReader};
use td_core::entries::entry_named;
use td_core::module::Entry;
use td_io::{Sink, WriterSink};
use td_vm::validate::Frame;
use text::{Compiled, compile, zeros};

// Reports on the message that a line has, in hexadecimal digits.
fn report_line<O: Sink>(
    alloc: Global,
    compiled: &Compiled,
    entry: Entry,
    cells: &[u64],
    line: &str,
    frame: &mut Frame,
    out: &mut O,
) -> Result<()>
    requires code { IsCodeOf compiled.now.code compiled.now.module }
    requires means { DoesWhatItMeans compiled.now.code compiled.now.module }
    requires entry { entry.number < length compiled.now.module.entries }
    requires begins { Begins compiled.now.module entry cells.now }
    requires armed { IsArmed compiled.now.code frame.old }
    ensures { IsArmed compiled.now.code frame.new }
{
    let message = hex::decode(alloc, line)?;
    ensure!(message.len() < 1 << 32, "the message is too long");
    report_message(alloc, compiled, entry, cells, &message, frame, out)?;
    Ok(())
}

// Reports on each message, in one frame.
fn report_all<R: BufRead + Drop, O: Sink>(
    alloc: Global,
    compiled: &Compiled,
    entry: Entry,
    cells: &[u64],
    messages: R,
    out: &mut O,
) -> Result<()>
    requires code { IsCodeOf compiled.now.code compiled.now.module }
    requires means { DoesWhatItMeans compiled.now.code compiled.now.module }
    requires entry { entry.number < length compiled.now.module.entries }
    requires begins { Begins compiled.now.module entry cells.now }
{
    let mut frame = Frame::arm(alloc, &compiled.code)?;
    for line in messages.lines(alloc) {
        let line = line?;
        report_line(
            alloc,
            compiled,
            entry,
            cells,
            line.as_str(),
            &mut frame,
            out,
        )?;
    }
    Ok(())
}

// The format's text as code.
fn compiled_format(rt: &HostRuntime) -> Result<Compiled>
    ensures code { IfOk result (λ c. IsCodeOf c.code c.module) }
    ensures means { IfOk result (λ c. DoesWhatItMeans c.code c.module) }
{
    let text = fs::read(rt, "arp.3d")?;
    ensure!(text.len() < u32::MAX as usize, "the text is too long");
    Ok(compile(rt.alloc(), text.as_slice())?)
}

// Reports on the messages of standard input.
fn report_input(rt: &HostRuntime, compiled: &Compiled) -> Result<()>
    requires code { IsCodeOf compiled.now.code compiled.now.module }
    requires means { DoesWhatItMeans compiled.now.code compiled.now.module }
{
    let alloc = rt.alloc();
    let Some(entry) = entry_named(&compiled.module, b"ARP") else {
        bail!("no entry point of this name");
    };
    let Some(cells) = zeros(alloc, &compiled.module, entry)? else {
        bail!("the entry point takes arguments");
    };
    let messages = BufReader::new(alloc, rt.reader())?;
    let mut out = WriterSink::over(rt.stdout());
    report_all(alloc, compiled, entry, cells.as_slice(), messages, &mut out)
}

fn main(rt: HostRuntime) -> Result<()> {
    let compiled = compiled_format(&rt)?;
    report_input(&rt, &compiled)
}
