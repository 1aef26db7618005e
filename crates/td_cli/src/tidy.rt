//! The command `tidy`: the canonical text of a module text that is accepted.

ghost use Rattle.std.specs.Prelude.{◌<◌, ◌≤◌, ◌-◌, ◌^◌, length};
ghost use Rattle.td_cli_command.specs.declared.command.Command.TheVariants as commands;
ghost use Rattle.td_cli_command.specs.declared.command.Reading.TheVariants as readings;
ghost use Rattle.td_cli.specs.Answers.{IsTidy};
ghost use Rattle.td_cli.specs.CallEnds.{passage};
ghost use Rattle.td_cli.specs.InputEnds.{AnswersInput};
ghost use Rattle.td_cli.specs.Texts.{AnswersText};

use crate::finish::{finish_bytes, finish_unanswered};
use crate::status::Status;
use crate::tool::INPUT_LIMIT;
use std::alloc::{AllocError, Global};
use td_cli_input::refusal::{InputError, of_module};
use td_front::check_input;
use td_io::Sink;
use td_num::text::Text;
use td_print::print;

// The canonical text of the module for which an input stands.
fn tidy_input(alloc: Global, input: &[u8]) -> Result<Text, InputError>
    requires { length input.now < 2 ^ 32 - 1 }
    ensures { AnswersText (IsTidy input.now) input.now result }
{
    match check_input(alloc, input) {
        Err(error) => Err(of_module(error)),
        Ok(checked) => match print(alloc, &checked.input) {
            Ok(text) => Ok(text),
            Err(AllocError) => Err(InputError::NoMemory),
        },
    }
}

/// Answers the input of `tidy`: with the canonical text of its module, or the line that refuses it.
pub(crate) fn answer_tidy<O: Sink, E: Sink>(
    alloc: Global,
    input: &[u8],
    out: &mut O,
    err: &mut E,
) -> Status
    requires { length input.now ≤ INPUT_LIMIT }
    ensures { AnswersInput (commands.Read readings.Tidy) input.now
        (passage O.state out.old out.new) (passage E.state err.old err.new) result }
{
    match tidy_input(alloc, input) {
        Ok(text) => finish_bytes(text.as_slice(), out),
        Err(error) => {
            let status = finish_unanswered(input, &error, err);
            drop(error);
            status
        }
    }
}
