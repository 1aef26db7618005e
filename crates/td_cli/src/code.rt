//! The command `code`: the listing of the code of a module text that is accepted.

ghost use Rattle.std.specs.Prelude.{◌<◌, ◌≤◌, ◌-◌, ◌^◌, length};
ghost use Rattle.td_cli_command.specs.declared.command.Command.TheVariants as commands;
ghost use Rattle.td_cli_command.specs.declared.command.Reading.TheVariants as readings;
ghost use Rattle.td_cli.specs.Answers.{IsListingOf};
ghost use Rattle.td_cli.specs.CallEnds.{passage};
ghost use Rattle.td_cli.specs.InputEnds.{AnswersInput};
ghost use Rattle.td_cli.specs.Texts.{AnswersText};

use crate::finish::{finish_bytes, finish_unanswered};
use crate::status::Status;
use crate::tool::INPUT_LIMIT;
use std::alloc::Global;
use td_cli_input::refusal::{InputError, of_module};
use td_code::code_listing;
use td_front::check_module;
use td_io::Sink;
use td_num::text::Text;

// The listing of the code of the module for which an input stands.
fn code_input(alloc: Global, input: &[u8]) -> Result<Text, InputError>
    requires { length input.now < 2 ^ 32 - 1 }
    ensures { AnswersText (IsListingOf input.now) input.now result }
{
    match check_module(alloc, input) {
        Err(error) => Err(of_module(error)),
        Ok(module) => match code_listing(alloc, &module) {
            Ok(text) => Ok(text),
            Err(_) => Err(InputError::NoMemory),
        },
    }
}

/// Answers the input of `code`: with the listing of its module's code, or the line that refuses it.
pub(crate) fn answer_code<O: Sink, E: Sink>(
    alloc: Global,
    input: &[u8],
    out: &mut O,
    err: &mut E,
) -> Status
    requires { length input.now ≤ INPUT_LIMIT }
    ensures { AnswersInput (commands.Read readings.Code) input.now
        (passage O.state out.old out.new) (passage E.state err.old err.new) result }
{
    match code_input(alloc, input) {
        Ok(text) => finish_bytes(text.as_slice(), out),
        Err(error) => {
            let status = finish_unanswered(input, &error, err);
            drop(error);
            status
        }
    }
}
