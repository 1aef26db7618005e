//! The command `pack`: the image of the code of a module text that is accepted.

ghost use Rattle.std.specs.Prelude.{◌<◌, ◌≤◌, ◌-◌, ◌^◌, length};
ghost use Rattle.td_code.specs.Compile.{IsImageOf};
ghost use Rattle.td_cli_command.specs.declared.command.Command.TheVariants as commands;
ghost use Rattle.td_cli_command.specs.declared.command.Reading.TheVariants as readings;
ghost use Rattle.td_cli.specs.CallEnds.{passage};
ghost use Rattle.td_cli.specs.InputEnds.{AnswersInput};
ghost use Rattle.td_cli.specs.Texts.{AnswersText};

use crate::finish::{finish_bytes, finish_unanswered};
use crate::status::Status;
use crate::tool::INPUT_LIMIT;
use std::alloc::Global;
use td_cli_input::refusal::{InputError, of_module};
use td_code::packed_image;
use td_front::check_module;
use td_io::Sink;
use td_num::items::Items;

// The image of the code of the module for which an input stands.
fn pack_input(alloc: Global, input: &[u8]) -> Result<Items<u8>, InputError>
    requires { length input.now < 2 ^ 32 - 1 }
    ensures { AnswersText (IsImageOf input.now) input.now result }
{
    match check_module(alloc, input) {
        Err(error) => Err(of_module(error)),
        Ok(module) => match packed_image(alloc, &module) {
            Ok(image) => Ok(image),
            Err(_) => Err(InputError::NoMemory),
        },
    }
}

/// Answers the input of `pack`: with the image of its module's code, or the line that refuses it.
pub(crate) fn answer_pack<O: Sink, E: Sink>(
    alloc: Global,
    input: &[u8],
    out: &mut O,
    err: &mut E,
) -> Status
    requires { length input.now ≤ INPUT_LIMIT }
    ensures { AnswersInput (commands.Read readings.Pack) input.now
        (passage O.state out.old out.new) (passage E.state err.old err.new) result }
{
    match pack_input(alloc, input) {
        Ok(image) => finish_bytes(image.as_slice(), out),
        Err(error) => {
            let status = finish_unanswered(input, &error, err);
            drop(error);
            status
        }
    }
}
