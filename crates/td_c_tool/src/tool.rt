//! The whole of `tdc`, over any source and sinks.

ghost use Rattle.std.specs.Prelude.{ℕ, List, map, string_bytes};
ghost use Rattle.td_c_command.specs.Command.{Means};
ghost use Rattle.td_c_command.specs.Prefix.{IsPrefix};
ghost use Rattle.td_c_ends.specs.Passages.{passage};
ghost use Rattle.td_c_tool.specs.CallEnds.{CallEnds};

use crate::answer::answer_input;
use std::alloc::Global;
use td_c_command::command::{Command, command_of};
use td_c_command::is_prefix;
use td_c_ends::{
    Refusal, Status, finish_out_of_memory, finish_refused, finish_unread, finish_usage,
};
use td_io::{Sink, Source, read_whole};

/// How many bytes an input has at most: 4 MiB.
pub const INPUT_LIMIT: usize = td_core::limits::MOST_INPUT;

// Reads the source and answers its input.
fn answer_source<S: Source, O: Sink, E: Sink>(
    alloc: Global,
    command: &Command,
    src: &mut S,
    out: &mut O,
    err: &mut E,
) -> Status
    requires { IsPrefix command.now.prefix }
    ensures { (words : List (List ℕ)) → Means words command.now → CallEnds words result
        (passage S.state src.old src.new) (passage O.state out.old out.new) (passage E.state err.old err.new) }
{
    match read_whole(alloc, src, INPUT_LIMIT) {
        Ok(input) => answer_input(alloc, command, &input, out, err),
        Err(error) => finish_unread(error, err),
    }
}

// Answers a command.
fn answer_command<S: Source, O: Sink, E: Sink>(
    alloc: Global,
    command: &Command,
    src: &mut S,
    out: &mut O,
    err: &mut E,
) -> Status
    ensures { (words : List (List ℕ)) → Means words command.now → CallEnds words result
        (passage S.state src.old src.new) (passage O.state out.old out.new) (passage E.state err.old err.new) }
{
    if is_prefix(command.prefix.as_slice()) {
        answer_source(alloc, command, src, out, err)
    } else {
        finish_refused(&[], &Refusal::BadName, err)
    }
}

/// Runs `tdc` on a command line, of which the first word is the program's name. It waits for nobody: it has no bound `Wait`, so
/// that it returns is proved.
///
/// At `Done` the input stands for a module with an entry point, and the file of C that the words ask for was written: the text of
/// the program of the code that is written of the module, and that program tells what the module means, whatever memory gives
/// to its loads.
///
/// The words are looked at first, and their name; then the source is read to its end, or until one byte past the limit was
/// read; then the input is answered. A source that has more is taken from by at most 4,096 bytes past the limit, and never
/// read again. Where the words mean no command, or their name can't begin names of C, the source isn't read at all.
///
/// See [`Status`] for what is written at each end. A fault is answered as what it was, by the counts of the three streams:
/// where a read failed, by `ReadFault`, or by `WriteFault` where writing that line failed too; where a write of `out` or of
/// `err` failed, by `WriteFault`, and the other sink is untouched. At each other end all counts are as before.
pub fn run_tdc<S: Source, O: Sink, E: Sink>(
    alloc: Global,
    words: &[String],
    src: &mut S,
    out: &mut O,
    err: &mut E,
) -> Status
    ensures { CallEnds (map string_bytes words.now) result
        (passage S.state src.old src.new) (passage O.state out.old out.new) (passage E.state err.old err.new) }
{
    match command_of(alloc, words) {
        Ok(Some(command)) => {
            let status = answer_command(alloc, &command, src, out, err);
            drop(command);
            status
        }
        Ok(None) => finish_usage(err),
        Err(_) => finish_out_of_memory(err),
    }
}
