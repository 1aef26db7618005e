//! A program over td's library: it reads a validator's image (`td pack` wrote it) from the file udp.td3i and a UDP datagram from
//! standard input, puts the datagram into words that others could store to, validates it there, and prints the verdict, the cells
//! and the loads.
//!
//! `main` and `print` have no clause; what is printed is what [`validate_message`] answers, whose clauses say what that is.
#![tactic(auto)]

mod message;
mod shared_words;
mod validation;

use message::{Answer, validate_message};
use std::fs;
use std::io::{self, Read};
use td_core::outcome::Verdict;

fn print(rt: &impl Print, answer: &Answer) -> io::Result<()> {
    match answer.outcome.verdict {
        Verdict::Accept { pos } => println!(rt; "accept {pos}")?,
        Verdict::Reject { reason, pos } => println!(rt; "reject {reason:?} {pos}")?,
    }
    for cell in answer.outcome.cells.as_slice() {
        println!(rt; "cell {cell}")?;
    }
    for load in answer.loads.as_slice() {
        println!(rt; "load {} {:016x}", load.word, load.value)?;
    }
    Ok(())
}

fn main(rt: HostRuntime) -> anyhow::Result<()> {
    let alloc = rt.alloc();
    let image = fs::read(&rt, "udp.td3i")?;
    let mut message = Vec::new(alloc);
    rt.reader().read_to_end(&mut message)?;
    let answer = validate_message(alloc, image.as_slice(), b"UDP", message.as_slice())?;
    print(&rt, &answer)?;
    Ok(())
}
