//! The answer to a line.

use crate::machine::put_runs;
use crate::written::put;
use hex::FromHexError;
use std::alloc::{AllocError, Global};
use td_image::{ImageError, read_image, write_image};
use td_ir::entries::entry_in;
use td_ir::listing::listing;
use td_verify::verify::Verified;

fn put_error(error: ImageError, out: &mut String) -> Result<(), AllocError> {
    match error {
        ImageError::Magic => out.push_str("I1"),
        ImageError::Version => out.push_str("I2"),
        ImageError::Short { at } => put(out, "I3 at ", at as u64),
        ImageError::Field { at } => put(out, "I4 at ", at as u64),
        ImageError::Rest { at } => put(out, "I5 at ", at as u64),
        ImageError::Refused(breach) => {
            out.push_str("I6 ")?;
            out.push_str(breach.rule.code())?;
            put(out, " at ", breach.at as u64)
        }
        ImageError::NoMemory => out.push_str("memory"),
    }
}

// Code is written in one version, so what is read of another isn't the same image.
fn put_again(
    alloc: Global,
    code: &Verified,
    bytes: &[u8],
    out: &mut String,
) -> Result<(), AllocError> {
    let again = write_image(alloc, code)?;
    out.push_str(if again.as_slice() == bytes {
        "ok"
    } else {
        "older"
    })
}

fn put_written(alloc: Global, code: &Verified, out: &mut String) -> Result<(), AllocError> {
    let again = write_image(alloc, code)?;
    let digits = hex::encode(alloc, again.as_slice())?;
    out.push_str(digits.as_str())
}

fn put_listing(alloc: Global, code: &Verified, out: &mut String) -> Result<(), AllocError> {
    let text = listing(alloc, code.code())?;
    let line = text.as_str().trim().replace(alloc, "\n", "; ")?;
    out.push_str(line.as_str())
}

fn put_entry(code: &Verified, name: &str, out: &mut String) -> Result<(), AllocError> {
    match entry_in(code.code(), name.as_bytes()) {
        Some(entry) => put(out, "", u64::from(entry.number)),
        None => out.push_str("none"),
    }
}

// The answer to the words that stand before the image of a code.
fn put_answer_of_code(
    alloc: Global,
    code: &Verified,
    words: &str,
    bytes: &[u8],
    out: &mut String,
) -> Result<(), AllocError> {
    if words.is_empty() {
        return put_again(alloc, code, bytes, out);
    }
    if let Some(name) = words.strip_prefix("entry ") {
        return put_entry(code, name, out);
    }
    if let Some(runs) = words.strip_prefix("run ") {
        return put_runs(alloc, code, runs, out);
    }
    match words {
        "written" => put_written(alloc, code, out),
        _ => put_listing(alloc, code, out),
    }
}

/// Puts the answer to a line. `AllocError`: there was no memory.
pub(crate) fn put_answer(alloc: Global, line: &str, out: &mut String) -> Result<(), AllocError> {
    let (words, digits) = line.rsplit_once(' ').unwrap_or(("", line));
    let bytes = match hex::decode(alloc, digits) {
        Ok(bytes) => bytes,
        Err(FromHexError::OutOfMemory) => return out.push_str("memory"),
        Err(_) => return out.push_str("no hexadecimal digits"),
    };
    match read_image(alloc, &bytes) {
        Ok(code) => put_answer_of_code(alloc, &code, words, &bytes, out),
        Err(error) => put_error(error, out),
    }
}
