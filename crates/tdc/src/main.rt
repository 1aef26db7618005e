//! The program `tdc`: it makes a source and sinks of the system's standard streams, hands them and its words to [`run_tdc`],
//! which waits for nobody, and ends with its status.
//!
//! `main` has no clause of its own: that it does just this is seen here and in the rows that run the built program. What
//! the call says of the streams' bytes holds of every source and sink; those of the system tell nothing of theirs.
#![tactic(auto)]

use std::process::ExitCode;
use std::{env, io};
use td_c_ends::finish_out_of_memory;
use td_c_tool::run_tdc;
use td_io::{ReaderSource, WriterSink};

fn main(rt: HostRuntime) -> ExitCode {
    let mut src = ReaderSource::over(rt.stdin());
    let mut out = WriterSink::over(rt.stdout());
    let mut err = WriterSink::over(rt.stderr());
    let status = match command_line(&rt) {
        Ok(words) => run_tdc(rt.alloc(), words.as_slice(), &mut src, &mut out, &mut err),
        Err(error) if error.kind() == io::ErrorKind::OutOfMemory => finish_out_of_memory(&mut err),
        // A word that is no text makes the command line a wrong one, as no word does.
        Err(_) => run_tdc(rt.alloc(), &[], &mut src, &mut out, &mut err),
    };
    ExitCode::from(status.number())
}

// The words of the command line, the program's name first. They are pushed one by one, as `collect` would try again where
// a first, larger room is refused.
fn command_line(rt: &HostRuntime) -> io::Result<Vec<String>> {
    let mut words = Vec::new(rt.alloc());
    for word in env::args(rt)? {
        words.push(word)?;
    }
    Ok(words)
}
