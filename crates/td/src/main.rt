//! The program `td`: it makes a source and sinks of the system's standard streams, hands them and its words to
//! [`run_alone`], which waits for nobody, and where that hands on (for `host` alone) to [`run_hosted`], and ends with the
//! status of the call that answered.
//!
//! `main` has no clause of its own: that it does just this is seen here and in the rows that run the built program. What
//! the two calls say of the streams' bytes holds of every source and sink; those of the system tell nothing of theirs.
#![tactic(auto)]

ghost use Rattle.std.specs.Prelude.{◌≡◌, ◌*◌, IfOk, length};

use std::alloc::{AllocError, AllocGlobal, Global};
use std::process::ExitCode;
use std::sync::Wait;
use std::thread::Threads;
use std::{env, io};
use td_cli::{Status, finish_out_of_memory, run_alone, run_hosted};
use td_cli_host::gates::GATES_OF_EACH;
use td_io::{ReaderSource, Sink, Source, WriterSink};
use td_live::gate::OpenGate;

fn main(rt: HostRuntime) -> ExitCode {
    let mut src = ReaderSource::over(rt.stdin());
    let mut out = WriterSink::over(rt.stdout());
    let mut err = WriterSink::over(rt.stderr());
    let answered = match command_line(&rt) {
        Ok(words) => run_alone(rt.alloc(), words.as_slice(), &mut src, &mut out, &mut err),
        Err(error) if error.kind() == io::ErrorKind::OutOfMemory => {
            Some(finish_out_of_memory(&mut err))
        }
        // A word that is no text makes the command line a wrong one, as no word does.
        Err(_) => run_alone(rt.alloc(), &[], &mut src, &mut out, &mut err),
    };
    let status = match answered {
        Some(status) => status,
        None => host(&rt, &mut src, &mut out, &mut err),
    };
    ExitCode::from(status.number())
}

// Answers `host`, whose threads no gate holds.
fn host<R: AllocGlobal + Threads + Wait + Sync, S: Source, O: Sink, E: Sink>(
    rt: &R,
    src: &mut S,
    out: &mut O,
    err: &mut E,
) -> Status {
    match open_gates(rt.alloc()) {
        Ok(gates) => run_hosted(rt, src, out, err, gates),
        Err(_) => finish_out_of_memory(err),
    }
}

// Gates that hold nobody, for workers and for guests.
fn open_gates(alloc: Global) -> Result<Vec<OpenGate>, AllocError>
    ensures { IfOk result (λ gates. length gates.items ≡ 2 * GATES_OF_EACH) }
{
    let mut gates = Vec::new(alloc);
    for _ in 0..2 * GATES_OF_EACH {
        gates.push(OpenGate)?;
    }
    Ok(gates)
}

// The words of the command line, the program's name first. They are pushed one by one, as `collect` would try again where
// a first, larger room is refused.
fn command_line(rt: &HostRuntime) -> io::Result<Vec<String>> {
    let mut words = Vec::new(rt.alloc());
    for word in env::args(rt)? {
        words.push(word)?;
    }
    Ok(words)
}
