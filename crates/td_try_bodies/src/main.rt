//! The program `td_try_bodies`: runs inputs of `td run` by a module's meaning, by the validator and by the module's code, and tells
//! whether they agree. A line of its input is such an input in hexadecimal digits. Its answer is a line too: the report that
//! `td run` writes, with semicolons for its line feeds; `differs` and the name of a body that told another outcome or made other
//! loads than the code; or why there was no run.
//!
//! `main` has no clause: the bodies have them, and what it prints is compared with a second reading of the language.
#![tactic(auto)]

mod answer;
mod bodies;
mod carried;

use answer::answer;
use std::alloc::Global;
use std::io::{self, BufRead, BufReader, BufWriter, Write};

// Writes the answer to a line.
fn write_answer(alloc: Global, line: &str, out: &mut impl Write) -> io::Result<()> {
    let text = answer(alloc, line)?;
    out.write_all(text.as_slice())?;
    out.write_all(b"\n")
}

fn main(rt: HostRuntime) -> io::Result<()> {
    let alloc = rt.alloc();
    let mut out = BufWriter::new(alloc, io::writer(&rt))?;
    for line in BufReader::new(alloc, rt.reader())?.lines(alloc) {
        let line = line?;
        write_answer(alloc, line.as_str(), &mut out)?;
    }
    out.flush()
}
