//! The line of the bytes that were written of a value.

ghost use Rattle.std.specs.Prelude.{◌≡◌, ◌++◌, true, false, option_map};
ghost use Rattle.td_io.specs.States.{Writes};
ghost use Rattle.td_report.specs.ErrorLine.{after_space};
ghost use Rattle.td_report.specs.Paged.{Waits};
ghost use Rattle.td_report.specs.Report.{hex_digits, byte_digits, bytes_line, written_line};

use crate::hexadecimal::two_digits_of;
use crate::paged::hand_on;
use crate::pieces::write_pieces;
use td_io::{Page, Sink, WriteFault, write_all};

fn write_byte<O: Sink>(out: &mut O, byte: u8) -> Result<(), WriteFault>
    ensures { Writes (O.state out.old) (O.state out.new) (hex_digits 2 byte) result }
{
    write_all(out, &two_digits_of(byte))
}

// Writes the digits of a byte to a page, and says whether there was room for them; where there was none the page is as before.
fn fits_page(page: &mut Page, byte: u8) -> bool
    ensures fits { result ≡ true → page.new.written ≡ page.old.written ++ hex_digits 2 byte }
    ensures kept { result ≡ false → page.new.written ≡ page.old.written }
{
    let count = page.len();
    match write_byte(page, byte) {
        Ok(()) => true,
        Err(_) => {
            page.cut(count);
            false
        }
    }
}

// Puts the digits of a byte behind those of the page; where the page has no room for them, those go out first.
fn put_byte<O: Sink>(out: &mut O, page: &mut Page, byte: u8) -> Result<(), WriteFault>
    ensures { Waits (O.state out.old) (O.state out.new) page.old.written page.new.written (hex_digits 2 byte) result }
{
    if fits_page(page, byte) {
        return Ok(());
    }
    hand_on(out, page)?;
    if fits_page(page, byte) {
        return Ok(());
    }
    write_byte(out, byte)
}

// The digits of bytes, which are gathered in a page, as there may be many.
fn write_digits<O: Sink>(out: &mut O, bytes: &[u8]) -> Result<(), WriteFault>
    ensures { Writes (O.state out.old) (O.state out.new) (byte_digits bytes.now) result }
{
    let mut page = Page::blank();
    for byte in bytes {
        put_byte(out, &mut page, *byte)?;
    }
    write_all(out, page.written())
}

// What stands before the digits of bytes: a space where there are any.
fn space_before(bytes: &[u8]) -> &'static [u8]
    ensures { result.now ++ byte_digits bytes.now ≡ after_space (byte_digits bytes.now) }
{
    if bytes.is_empty() { b"" } else { b" " }
}

/// The digits of bytes, after a space where there are any.
pub(crate) fn write_spaced<O: Sink>(out: &mut O, bytes: &[u8]) -> Result<(), WriteFault>
    ensures { Writes (O.state out.old) (O.state out.new) (after_space (byte_digits bytes.now)) result }
{
    write_all(out, space_before(bytes))?;
    write_digits(out, bytes)
}

#[tactic(auto, unfolding(crate::specs::Report::bytes_line))]
fn write_bytes<O: Sink>(out: &mut O, bytes: &[u8]) -> Result<(), WriteFault>
    ensures { Writes (O.state out.old) (O.state out.new) (bytes_line bytes.now) result }
{
    write_pieces(out, &[b"bytes"])?;
    write_spaced(out, bytes)?;
    write_pieces(out, &[b"\n"])
}

/// Writes `bytes` and the digits of each byte that was written of a value; nothing, where the message isn't made of one.
/// Takes no memory.
pub(crate) fn write_written<O: Sink>(out: &mut O, written: Option<&[u8]>) -> Result<(), WriteFault>
    ensures { Writes (O.state out.old) (O.state out.new) (written_line (option_map (λ w. w.now) written.entry)) result }
{
    match written {
        None => Ok(()),
        Some(bytes) => write_bytes(out, bytes),
    }
}
