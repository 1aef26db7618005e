//! The command `host`: the posts of the job's guests are served, and its rings are looked at, while the guests go on storing
//! to the buffer.

ghost use Rattle.std.specs.Prelude.{◌≡◌, ◌≤◌, ◌*◌, length};
ghost use Rattle.td_cli_command.specs.declared.command.Command.TheVariants as commands;
ghost use Rattle.td_cli.specs.CallEnds.{passage};
ghost use Rattle.td_cli.specs.InputEnds.{AnswersInput};

use crate::finish::{finish_served, finish_unanswered};
use crate::status::Status;
use crate::tool::INPUT_LIMIT;
use std::alloc::AllocGlobal;
use std::sync::Wait;
use std::thread::Threads;
use td_cli_host::gates::GATES_OF_EACH;
use td_cli_host::served_input::serve_input;
use td_io::Sink;
use td_live::gate::Gate;

/// Answers the input of `host`: with the report of its job's replies and takes, or the line that refuses it. There may be no
/// memory only where the input has a marker. It may wait.
pub(crate) fn answer_host<
    R: AllocGlobal + Threads + Wait + Sync,
    O: Sink,
    E: Sink,
    G: Gate + Send + Drop,
>(rt: &R, input: &[u8], out: &mut O, err: &mut E, gates: Vec<G>) -> Status
    requires short { length input.now ≤ INPUT_LIMIT }
    requires gates { length gates.items ≡ 2 * GATES_OF_EACH }
    ensures { AnswersInput commands.Host input.now
        (passage O.state out.old out.new) (passage E.state err.old err.new) result }
{
    match serve_input(rt, input, gates) {
        Ok(served) => {
            let status = finish_served(&served, out);
            drop(served);
            status
        }
        Err(error) => {
            let status = finish_unanswered(input, &error, err);
            drop(error);
            status
        }
    }
}
