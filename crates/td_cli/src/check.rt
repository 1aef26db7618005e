//! The command `check`: whether a module text is accepted, and what it has.

ghost use Rattle.std.specs.Prelude.{◌<◌, ◌≤◌, ◌-◌, ◌^◌, length};
ghost use Rattle.td_front.specs.ModuleText.{IsModuleText};
ghost use Rattle.td_cli_command.specs.declared.command.Command.TheVariants as commands;
ghost use Rattle.td_cli_command.specs.declared.command.Reading.TheVariants as readings;
ghost use Rattle.td_cli.specs.CallEnds.{passage};
ghost use Rattle.td_cli.specs.InputEnds.{AnswersInput};
ghost use Rattle.td_cli.specs.Texts.{AnswersText};

use crate::finish::{finish_summary, finish_unanswered};
use crate::status::Status;
use crate::tool::INPUT_LIMIT;
use std::alloc::Global;
use td_cli_input::refusal::{InputError, of_module};
use td_core::module::Module;
use td_front::check_module;
use td_io::Sink;

// The module for which an input stands.
fn module_of_input(alloc: Global, input: &[u8]) -> Result<Module, InputError>
    requires { length input.now < 2 ^ 32 - 1 }
    ensures { AnswersText (IsModuleText input.now) input.now result }
{
    match check_module(alloc, input) {
        Ok(module) => Ok(module),
        Err(error) => Err(of_module(error)),
    }
}

/// Answers the input of `check`: with what its module has, or the line that refuses it.
pub(crate) fn answer_check<O: Sink, E: Sink>(
    alloc: Global,
    input: &[u8],
    out: &mut O,
    err: &mut E,
) -> Status
    requires { length input.now ≤ INPUT_LIMIT }
    ensures { AnswersInput (commands.Read readings.Check) input.now
        (passage O.state out.old out.new) (passage E.state err.old err.new) result }
{
    match module_of_input(alloc, input) {
        Ok(m) => {
            let status = finish_summary(&m, out);
            drop(m);
            status
        }
        Err(error) => {
            let status = finish_unanswered(input, &error, err);
            drop(error);
            status
        }
    }
}
