//! The C of an input that was read.

ghost use Rattle.std.specs.Prelude.{◌<◌, ◌≤◌, ◌-◌, ◌^◌, ℕ, List, length, IfOk};
ghost use Rattle.td_front.specs.Checked.{IsChecked};
ghost use Rattle.td_front.specs.ModuleText.{IsModuleText};
ghost use Rattle.td_c_command.specs.Prefix.{IsPrefix};
ghost use Rattle.td_c_ends.specs.Passages.{passage};
ghost use Rattle.td_c_tool.specs.Answers.{IsFile};
ghost use Rattle.td_c_tool.specs.Files.{AnswersModule, AnswersText};
ghost use Rattle.td_c_tool.specs.InputEnds.{AnswersInput};

use crate::tool::INPUT_LIMIT;
use std::alloc::{AllocError, Global};
use td_c_command::command::{CFile, Command};
use td_c_ends::{InputError, Refusal, Status, finish_bytes, finish_unanswered, of_module};
use td_c_text::{c_header, c_parts, c_source};
use td_core::module::Module;
use td_front::check_module;
use td_front::laws::one_answer_each;
use td_io::Sink;
use td_num::text::Text;

// A file of the C of a module.
fn file_of(alloc: Global, command: &Command, m: &Module) -> Result<Text, AllocError>
    requires { IsChecked m.now }
    ensures { (text : List ℕ) → length text < 2 ^ 32 → IsModuleText text m.now → IfOk result (IsFile command.now.file command.now.prefix m.now) }
{
    match command.file {
        CFile::Source => c_source(alloc, m, command.prefix.as_slice()),
        CFile::Header => c_header(alloc, m, command.prefix.as_slice()),
        CFile::Parts => c_parts(alloc, m, command.prefix.as_slice()),
    }
}

// The same of a module for which a text stands, if it has an entry point.
fn file_with_entry(alloc: Global, command: &Command, m: &Module) -> Result<Text, InputError>
    requires { IsChecked m.now }
    ensures { (text : List ℕ) → length text < 2 ^ 32 → IsModuleText text m.now → AnswersModule (IsFile command.now.file command.now.prefix m.now) m.now result }
{
    if m.entries.len() == 0 {
        return Err(InputError::Refused(Refusal::NoEntry));
    }
    match file_of(alloc, command, m) {
        Ok(file) => Ok(file),
        Err(_) => Err(InputError::NoMemory),
    }
}

// The file of C that the command asks for, of the module for which an input stands.
fn c_of_input(alloc: Global, command: &Command, input: &[u8]) -> Result<Text, InputError>
    requires { length input.now < 2 ^ 32 - 1 }
    ensures { AnswersText (IsFile command.now.file command.now.prefix) input.now result }
{
    one_answer_each();
    match check_module(alloc, input) {
        Err(error) => Err(of_module(error)),
        Ok(module) => file_with_entry(alloc, command, &module),
    }
}

/// Answers an input that was read: with the file of C that the command asks for, or the line that refuses the input.
pub(crate) fn answer_input<O: Sink, E: Sink>(
    alloc: Global,
    command: &Command,
    input: &[u8],
    out: &mut O,
    err: &mut E,
) -> Status
    requires named { IsPrefix command.now.prefix }
    requires short { length input.now ≤ INPUT_LIMIT }
    ensures { AnswersInput command.now input.now
        (passage O.state out.old out.new) (passage E.state err.old err.new) result }
{
    match c_of_input(alloc, command, input) {
        Ok(text) => finish_bytes(text.as_slice(), out),
        Err(error) => {
            let status = finish_unanswered(input, &error, err);
            drop(error);
            status
        }
    }
}
