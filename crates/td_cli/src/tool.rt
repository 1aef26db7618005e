//! The whole tool, over any source and sinks.

ghost use Rattle.std.specs.Prelude.{◌≡◌, ◌≢◌, ◌≤◌, ◌⊎◌, ◌*◌, ℕ, List, None, Some, IfSome, MatchOption, length, map, string_bytes};
ghost use Rattle.td_cli_input.specs.declared.refusal.Refusal.{Refusal};
ghost use Rattle.td_cli.specs.Answers.{Admits, Refuses};
ghost use Rattle.td_cli_command.specs.Command.{IsInRange, Means};
ghost use Rattle.td_cli.specs.CallEnds.{CallEnds, EndsAs, IsHandedOn, StopsReading, passage};
ghost use Rattle.td_cli.specs.InputEnds.{AnswersInput};

use crate::bench::answer_bench;
use crate::check::answer_check;
use crate::code::answer_code;
use crate::finish::{finish_out_of_memory, finish_unread, finish_with_line};
use crate::host::answer_host;
use crate::lines::USAGE;
use crate::pack::answer_pack;
use crate::run::answer_run;
use crate::status::Status;
use crate::tidy::answer_tidy;
use std::alloc::{AllocGlobal, Global};
use std::sync::Wait;
use std::thread::Threads;
use td_cli_command::command::{Command, Reading, command_of};
use td_cli_host::gates::GATES_OF_EACH;
use td_io::{Sink, Source, read_whole};
use td_live::gate::Gate;

/// How many bytes an input has at most: 4 MiB.
pub const INPUT_LIMIT: usize = td_core::limits::MOST_INPUT;

// Answers an input that was read. For `run` there may be no memory only where the input has a marker.
fn answer_input<O: Sink, E: Sink>(
    alloc: Global,
    reading: Reading,
    input: &[u8],
    out: &mut O,
    err: &mut E,
) -> Status
    requires { length input.now ≤ INPUT_LIMIT }
    ensures { AnswersInput (Command.Read reading) input.now
        (passage O.state out.old out.new) (passage E.state err.old err.new) result }
{
    match reading {
        Reading::Check => answer_check(alloc, input, out, err),
        Reading::Tidy => answer_tidy(alloc, input, out, err),
        Reading::Code => answer_code(alloc, input, out, err),
        Reading::Pack => answer_pack(alloc, input, out, err),
        Reading::Run => answer_run(alloc, input, out, err),
    }
}

// Reads the source and answers its input.
fn answer_source<S: Source, O: Sink, E: Sink>(
    alloc: Global,
    reading: Reading,
    src: &mut S,
    out: &mut O,
    err: &mut E,
) -> Status
    ensures ends { (words : List (List ℕ)) → Means words (Command.Read reading) →
        EndsAs result words (passage S.state src.old src.new) (passage O.state out.old out.new) (passage E.state err.old err.new) }
    ensures usage { result ≢ Status.Usage }
    ensures good { (input : List ℕ) → (S.state src.old).left ≡ Some input → Admits (Command.Read reading) input → result ≢ Status.Refused }
    ensures bad { (input : List ℕ) (refusal : Refusal) → (S.state src.old).left ≡ Some input → Refuses (Command.Read reading) input refusal → result ≢ Status.Done }
    ensures taken { StopsReading (passage S.state src.old src.new) }
{
    match read_whole(alloc, src, INPUT_LIMIT) {
        Ok(input) => answer_input(alloc, reading, &input, out, err),
        Err(error) => finish_unread(error, err),
    }
}

// Reads the source and answers its input as that of `host`. It may wait.
fn answer_hosted<
    R: AllocGlobal + Threads + Wait + Sync,
    S: Source,
    O: Sink,
    E: Sink,
    G: Gate + Send + Drop,
>(rt: &R, src: &mut S, out: &mut O, err: &mut E, gates: Vec<G>) -> Status
    requires { length gates.items ≡ 2 * GATES_OF_EACH }
    ensures ends { (words : List (List ℕ)) → Means words Command.Host →
        EndsAs result words (passage S.state src.old src.new) (passage O.state out.old out.new) (passage E.state err.old err.new) }
    ensures usage { result ≢ Status.Usage }
    ensures good { (input : List ℕ) → (S.state src.old).left ≡ Some input → Admits Command.Host input → result ≢ Status.Refused }
    ensures bad { (input : List ℕ) (refusal : Refusal) → (S.state src.old).left ≡ Some input → Refuses Command.Host input refusal → result ≢ Status.Done }
    ensures taken { StopsReading (passage S.state src.old src.new) }
{
    match read_whole(rt.alloc(), src, INPUT_LIMIT) {
        Ok(input) => answer_host(rt, &input, out, err, gates),
        Err(error) => finish_unread(error, err),
    }
}

// Answers a command: one that reads its source by what it holds, and `bench` without it. None: it is `host`, and nothing
// was read or written.
fn answer_command<S: Source, O: Sink, E: Sink>(
    alloc: Global,
    command: Command,
    src: &mut S,
    out: &mut O,
    err: &mut E,
) -> Option<Status>
    requires { IsInRange command }
    ensures ends { (words : List (List ℕ)) → Means words command → MatchOption result
        (IsHandedOn words (passage S.state src.old src.new) (passage O.state out.old out.new) (passage E.state err.old err.new))
        (λ status. CallEnds words status (passage S.state src.old src.new) (passage O.state out.old out.new) (passage E.state err.old err.new)) }
    ensures host { command ≡ Command.Host → result ≡ None }
{
    match command {
        Command::Read(reading) => Some(answer_source(alloc, reading, src, out, err)),
        Command::Host => None,
        Command::Bench(n) => Some(answer_bench(alloc, n, out, err)),
    }
}

/// Runs the tool on a command line, of which the first word is the program's name, and waits for nobody: it has no bound
/// `Wait`, so that it returns is proved. None: the words mean `host`, which waits and is answered by [`run_hosted`], and
/// nothing was read or written. For such words there is another answer only where there was no memory.
///
/// At `Done` of `check` the input stands for a module, of which the counts were written. At `Done` of `tidy` it stands for
/// one too, and the canonical text of its tree was written. At `Done` of `code` and `pack` it stands for one too, and the
/// listing, or the image, of code was written that does what the module means. At `Done` of `run` the input was answered by
/// the report of a run in which each word of the message was loaded at most once, and whose outcome is the meaning's on
/// every list of bytes that carries the loads. At `Done` of `bench` the counts and sums over one such run of each message
/// were written.
///
/// The words are looked at first; then the source is read to its end, or until one byte past the limit was read; then the
/// input is answered. For `bench` nothing is read. A source that has more is taken from by at most 4,096 bytes past the
/// limit, and never read again. Where the words mean no command, the source isn't read at all.
///
/// See [`Status`] for what is written at each end. A fault is answered as what it was, by the counts of the three streams:
/// where a read failed, by `ReadFault`, or by `WriteFault` where writing that line failed too; where a write of `out` or of
/// `err` failed, by `WriteFault`, and the other sink is untouched. At each other end all counts are as before.
pub fn run_alone<S: Source, O: Sink, E: Sink>(
    alloc: Global,
    words: &[String],
    src: &mut S,
    out: &mut O,
    err: &mut E,
) -> Option<Status>
    ensures ends { MatchOption result
        (IsHandedOn (map string_bytes words.now) (passage S.state src.old src.new) (passage O.state out.old out.new) (passage E.state err.old err.new))
        (λ status. CallEnds (map string_bytes words.now) status (passage S.state src.old src.new) (passage O.state out.old out.new) (passage E.state err.old err.new)) }
    ensures host { Means (map string_bytes words.now) Command.Host → IfSome result (λ status. (status ≡ Status.NoMemory) ⊎ (status ≡ Status.WriteFault)) }
{
    match command_of(alloc, words) {
        Ok(Some(command)) => answer_command(alloc, command, src, out, err),
        Ok(None) => Some(finish_with_line(USAGE, Status::Usage, err)),
        Err(_) => Some(finish_out_of_memory(err)),
    }
}

/// Answers `host`, for which [`run_alone`] hands on: reads the source to its end, as that says, and serves the posts of its job,
/// with the first gates of each half, sixteen for workers and then sixteen for guests. It may wait, and what it says holds if
/// it returns. At `Done` the input was answered by the report of a list of replies by which all posts of its job are served.
pub fn run_hosted<
    R: AllocGlobal + Threads + Wait + Sync,
    S: Source,
    O: Sink,
    E: Sink,
    G: Gate + Send + Drop,
>(rt: &R, src: &mut S, out: &mut O, err: &mut E, gates: Vec<G>) -> Status
    requires { length gates.items ≡ 2 * GATES_OF_EACH }
    ensures { (words : List (List ℕ)) → Means words Command.Host → CallEnds words result
        (passage S.state src.old src.new) (passage O.state out.old out.new) (passage E.state err.old err.new) }
{
    answer_hosted(rt, src, out, err, gates)
}

/// Runs the tool, whatever the command: [`run_alone`], and where that hands on [`run_hosted`]. It may wait for `host`; for which
/// words it may is said by the clauses of the two, which the program calls itself.
pub fn run_tool<
    R: AllocGlobal + Threads + Wait + Sync,
    S: Source,
    O: Sink,
    E: Sink,
    G: Gate + Send + Drop,
>(rt: &R, words: &[String], src: &mut S, out: &mut O, err: &mut E, gates: Vec<G>) -> Status
    requires { length gates.items ≡ 2 * GATES_OF_EACH }
    ensures { CallEnds (map string_bytes words.now) result
        (passage S.state src.old src.new) (passage O.state out.old out.new) (passage E.state err.old err.new) }
{
    match run_alone(rt.alloc(), words, src, out, err) {
        Some(status) => status,
        None => run_hosted(rt, src, out, err, gates),
    }
}
