//! The program `td_try_code`: what td_image, td_verify, td_ir and td_vm answer to images of code, a line of output for each line
//! of input, so that scripts can try any bytes and code written by hand. `HEX`, an image in hexadecimal digits: `ok` (it is
//! read, and written again gives the same bytes), `older` (it is read, and written again gives others, as one of an older
//! version does), or why it isn't read. `written HEX`: the image that is written again, in digits. `listing HEX`: the lines of its
//! listing, parted by semicolons. `entry NAME HEX`: the number of the entry point of that name, or `none`. `run RUNS HEX`: what
//! the machine answers to each of these runs, which semicolons part, as the answers too (how they are spelled stands in
//! numbers.rt and written.rt).
//!
//! `main` has no clause: what it calls has them, and what it prints is compared with a second reading of the rules.
#![tactic(auto)]

mod answer;
mod machine;
mod numbers;
mod written;

use answer::put_answer;
use std::io::{self, BufRead, BufReader, BufWriter, Write};

fn main(rt: HostRuntime) -> io::Result<()> {
    let alloc = rt.alloc();
    let mut out = BufWriter::new(alloc, io::writer(&rt))?;
    for line in BufReader::new(alloc, rt.reader())?.lines(alloc) {
        let line = line?;
        let mut text = String::new(alloc);
        put_answer(alloc, line.as_str(), &mut text)?;
        out.write_all(text.as_bytes())?;
        out.write_all(b"\n")?;
    }
    out.flush()
}
