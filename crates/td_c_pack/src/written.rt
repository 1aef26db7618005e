//! What C calls to write C of an image, whoever made it.

ghost use Rattle.std.specs.Prelude.{◌≡◌, ◌≤◌, ◌<◌, ◌⊎◌, length, take, drop, pos, IfOk, IfErr};
ghost use Rattle.td_c_pack.specs.Faults.{IsNoText};
ghost use Rattle.td_c_pack.specs.Written.{IsTextOfCode, IsTextOfImage, IsUnwritten, IsWriting, TellsTextSize, file_text};

use crate::fault::{TdWritten, TextError, tell_fault};
use crate::room::put;
use std::alloc::{AllocError, Global};
use td_c_command::is_prefix;
use td_image::{ImageError, read_image};
use td_prog_emit::{c_header, c_source, parts_source};
use td_verify::Verified;

/// `TD_C_HEADER` of td_pack.h. Each number but this and the next one is that of the functions.
const HEADER: u32 = 1;

/// `TD_C_PARTS` of td_pack.h.
const PARTS: u32 = 2;

const BAD_NAME: i32 = 24;

const NO_ENTRY: i32 = 25;

// A file of a code.
fn file_of(alloc: Global, code: &Verified, which: u32, prefix: &[u8]) -> Result<Vec<u8>, AllocError>
    ensures { IfOk result (λ file. file.items ≡ file_text which prefix.now code.now) }
{
    if which == HEADER {
        c_header(alloc, code, prefix)
    } else if which == PARTS {
        parts_source(alloc, code, prefix)
    } else {
        c_source(alloc, code, prefix)
    }
}

// The same, of code that has an entry point.
fn text_of_code(
    alloc: Global,
    code: &Verified,
    which: u32,
    prefix: &[u8],
) -> Result<Vec<u8>, TextError>
    ensures text { IfOk result (λ file. IsTextOfCode code.now which prefix.now file.items) }
    ensures none { IfErr result (IsNoText code.now) }
{
    let parts = code.code().parts();
    if parts.entries.len() == 0 {
        return Err(TextError::NoEntry);
    }
    match file_of(alloc, code, which, prefix) {
        Ok(file) => Ok(file),
        Err(_) => Err(TextError::Image(ImageError::NoMemory)),
    }
}

// A file of the code of an image that the verifier accepts.
fn text_of(alloc: Global, image: &[u8], which: u32, prefix: &[u8]) -> Result<Vec<u8>, TextError>
    ensures text { IfOk result (λ file. IsTextOfImage image.now which prefix.now file.items) }
    ensures none { IfErr result (IsUnwritten image.now) }
{
    match read_image(alloc, image) {
        Ok(code) => text_of_code(alloc, &code, which, prefix),
        Err(error) => Err(TextError::Image(error)),
    }
}

// Puts a text where there is room for it.
fn put_text(found: &[u8], text: &mut [u8], told: &mut TdWritten) -> i32
    ensures which { (result ≡ pos 0) ⊎ (result ≡ pos 23) }
    ensures size { told.new.size ≡ length found.now }
    ensures told { TellsTextSize told.old told.new }
    ensures done { result ≡ pos 0 → (take (length found.now) text.new ≡ found.now) × (length found.now ≤ length text.new) }
    ensures behind { result ≡ pos 0 → drop (length found.now) text.new ≡ drop (length found.now) text.old }
    ensures room { result ≡ pos 23 → length text.new < length found.now }
    ensures unwritten { result ≡ pos 23 → text.new ≡ text.old }
{
    told.size = found.len() as u64;
    put(found, text)
}

/// Reads an image, and writes the C of its code where there is room, and no other byte: the functions; where `which` is 1
/// their declarations; where it is 2 the functions for messages in pieces. `prefix` begins the names. 0: the text is
/// written; 22: the bytes are no image of code that the verifier accepts, and what was told says why; 23: the text has
/// more bytes than there is room for, as was told; 24: the prefix isn't a letter, then letters, digits and `_`; 25: the
/// code has no entry point; 4: there was no memory, which comes only where a first row of a table was read, or the bytes
/// are an image.
#[unsafe(no_mangle)]
pub extern "C" fn td_c_write(
    alloc: Global,
    image: &[u8],
    which: u32,
    prefix: &[u8],
    text: &mut [u8],
    told: &mut TdWritten,
) -> i32
    ensures { IsWriting image.now which prefix.now text.old text.new told.old told.new result }
{
    if !is_prefix(prefix) {
        return BAD_NAME;
    }
    match text_of(alloc, image, which, prefix) {
        Ok(found) => put_text(found.as_slice(), text, told),
        Err(TextError::Image(error)) => tell_fault(error, told),
        Err(TextError::NoEntry) => NO_ENTRY,
    }
}
