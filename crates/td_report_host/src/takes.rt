//! The lines of takes from rings.

ghost use Rattle.std.specs.Prelude.{◌≡◌, ◌++◌, true, false, flat_map, IfSome, option_map};
ghost use Rattle.std.specs.List.{All};
ghost use Rattle.td_io.specs.States.{Writes};
ghost use Rattle.td_report.specs.Paged.{Waits};
ghost use Rattle.td_report_host.specs.Report.{ring_line, head_line, message_line, descr_report, message_report, answer_report, take_report, HasMessageWords, HasTakenWords};

use crate::run::write_run;
use itoa::Buffer;
use td_core::module::{Entry, Module};
use td_descr::Next;
use td_io::{Page, Sink, WriteFault, write_all};
use td_report::hexadecimal::digits_of;
use td_report::paged::hand_on;
use td_report::pieces::write_pieces;
use td_takes::Take;

#[tactic(auto, unfolding(crate::specs::Report::ring_line))]
fn write_ring_line<O: Sink>(out: &mut O, ring: u32, number: u32) -> Result<(), WriteFault>
    ensures { Writes (O.state out.old) (O.state out.new) (ring_line ring number) result }
{
    let mut rings = Buffer::new();
    let mut numbers = Buffer::new();
    let ring = rings.format(ring).as_bytes();
    let number = numbers.format(number).as_bytes();
    write_pieces(out, &[b"ring ", ring, b" ", number, b"\n"])
}

#[tactic(auto, unfolding(crate::specs::Report::head_line))]
fn write_head_line<O: Sink>(out: &mut O, head: u64) -> Result<(), WriteFault>
    ensures { Writes (O.state out.old) (O.state out.new) (head_line head) result }
{
    write_pieces(out, &[b"head ", &digits_of(head), b"\n"])
}

#[tactic(auto, unfolding(crate::specs::Report::message_line))]
fn write_message_line<O: Sink>(out: &mut O, number: u64) -> Result<(), WriteFault>
    ensures { Writes (O.state out.old) (O.state out.new) (message_line number) result }
{
    let mut numbers = Buffer::new();
    let number = numbers.format(number).as_bytes();
    write_pieces(out, &[b"message ", number, b"\n"])
}

/// The report of the descriptor that a take has, by the module of descriptors.
fn write_descr<O: Sink>(
    out: &mut O,
    ring: Option<(&Module, Entry)>,
    take: &Take,
) -> Result<(), WriteFault>
    requires { IfSome take.now.descr HasMessageWords }
    ensures { Writes (O.state out.old) (O.state out.new) (descr_report (option_map (λ r. (r.0.now, r.1)) ring.entry) take.now.descr) result }
{
    let Some((format, entry)) = ring else {
        return Ok(());
    };
    match &take.descr {
        None => Ok(()),
        Some(descr) => write_run(out, format, entry, descr),
    }
}

/// The report of the message that a take has, under version 0.
fn write_message<O: Sink>(
    out: &mut O,
    formats: &[Module],
    entries: &[Entry],
    take: &Take,
) -> Result<(), WriteFault>
    requires { IfSome take.now.message HasMessageWords }
    ensures { Writes (O.state out.old) (O.state out.new) (message_report formats.now entries.now take.now.message) result }
{
    let Some(message) = &take.message else {
        return Ok(());
    };
    match (formats.first(), entries.first()) {
        (Some(format), Some(entry)) => write_run(out, format, *entry, message),
        _ => Ok(()),
    }
}

/// The report of a descriptor that was accepted, and its message's line and report.
fn write_accepted<O: Sink>(
    out: &mut O,
    formats: &[Module],
    entries: &[Entry],
    ring: Option<(&Module, Entry)>,
    number: u64,
    take: &Take,
) -> Result<(), WriteFault>
    requires { HasTakenWords take.now }
    ensures { Writes (O.state out.old) (O.state out.new)
        (descr_report (option_map (λ r. (r.0.now, r.1)) ring.entry) take.now.descr ++ message_line number ++ message_report formats.now entries.now take.now.message) result }
{
    write_descr(out, ring, take)?;
    write_message_line(out, number)?;
    write_message(out, formats, entries, take)
}

/// What came of a take.
fn write_answer<O: Sink>(
    out: &mut O,
    formats: &[Module],
    entries: &[Entry],
    ring: Option<(&Module, Entry)>,
    take: &Take,
) -> Result<(), WriteFault>
    requires { HasTakenWords take.now }
    ensures { Writes (O.state out.old) (O.state out.new)
        (answer_report formats.now entries.now (option_map (λ r. (r.0.now, r.1)) ring.entry) take.now.next take.now.descr take.now.message) result }
{
    match take.next {
        Next::Idle { .. } => write_pieces(out, &[b"idle\n"]),
        Next::Overrun { .. } => write_pieces(out, &[b"overrun\n"]),
        Next::Bad { .. } => write_descr(out, ring, take),
        Next::Message { number, .. } => write_accepted(out, formats, entries, ring, number, take),
    }
}

/// The lines of a take.
#[tactic(auto, unfolding(crate::specs::Report::take_report))]
fn write_take<O: Sink>(
    out: &mut O,
    formats: &[Module],
    entries: &[Entry],
    ring: Option<(&Module, Entry)>,
    take: &Take,
) -> Result<(), WriteFault>
    requires { HasTakenWords take.now }
    ensures { Writes (O.state out.old) (O.state out.new) (take_report formats.now entries.now (option_map (λ r. (r.0.now, r.1)) ring.entry) take.now) result }
{
    write_ring_line(out, take.ring, take.number)?;
    write_head_line(out, take.head)?;
    write_answer(out, formats, entries, ring, take)
}

// Writes a take to a page, and says whether there was room for it; where there was none the page is as before.
fn fits_page(
    page: &mut Page,
    formats: &[Module],
    entries: &[Entry],
    ring: Option<(&Module, Entry)>,
    take: &Take,
) -> bool
    requires { HasTakenWords take.now }
    ensures fits { result ≡ true → page.new.written ≡ page.old.written ++ take_report formats.now entries.now (option_map (λ r. (r.0.now, r.1)) ring.entry) take.now }
    ensures kept { result ≡ false → page.new.written ≡ page.old.written }
{
    let count = page.len();
    match write_take(page, formats, entries, ring, take) {
        Ok(()) => true,
        Err(_) => {
            page.cut(count);
            false
        }
    }
}

/// Puts a take behind those of the page; where the page has no room for it, those go out first, and a take that no page has room for
/// goes out by its parts.
fn put_take<O: Sink>(
    out: &mut O,
    page: &mut Page,
    formats: &[Module],
    entries: &[Entry],
    ring: Option<(&Module, Entry)>,
    take: &Take,
) -> Result<(), WriteFault>
    requires { HasTakenWords take.now }
    ensures { Waits (O.state out.old) (O.state out.new) page.old.written page.new.written
        (take_report formats.now entries.now (option_map (λ r. (r.0.now, r.1)) ring.entry) take.now) result }
{
    if fits_page(page, formats, entries, ring, take) {
        return Ok(());
    }
    hand_on(out, page)?;
    if fits_page(page, formats, entries, ring, take) {
        return Ok(());
    }
    write_take(out, formats, entries, ring, take)
}

/// Writes the lines of takes, which are gathered in a page, as there may be many.
pub(crate) fn write_takes<O: Sink>(
    out: &mut O,
    formats: &[Module],
    entries: &[Entry],
    ring: Option<(&Module, Entry)>,
    takes: &[Take],
) -> Result<(), WriteFault>
    requires { All HasTakenWords takes.now }
    ensures { Writes (O.state out.old) (O.state out.new) (flat_map (take_report formats.now entries.now (option_map (λ r. (r.0.now, r.1)) ring.entry)) takes.now) result }
{
    let mut page = Page::blank();
    for take in takes {
        put_take(out, &mut page, formats, entries, ring, take)?;
    }
    write_all(out, page.written())
}
