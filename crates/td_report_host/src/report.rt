//! The report of a host.

ghost use Rattle.std.specs.Prelude.{◌≡◌, ◌++◌, [], true, false, length, flat_map, option_map, OnOk};
ghost use Rattle.std.specs.List.{All};
ghost use Rattle.td_io.specs.States.{Writes};
ghost use Rattle.td_report.specs.Paged.{Waits};
ghost use Rattle.td_report_host.specs.Report.{reply_line, version_line, reply_report, host_report, HasMessageWords, HasTakenWords, HasVersion};

use crate::run::write_run;
use crate::takes::write_takes;
use itoa::Buffer;
use td_core::module::{Entry, Module};
use td_io::{Page, Sink, WriteFault, write_all};
use td_posts::reply::Reply;
use td_report::paged::hand_on;
use td_report::pieces::write_pieces;
use td_takes::Take;

#[tactic(auto, unfolding(crate::specs::Report::reply_line))]
fn write_reply_line<O: Sink>(out: &mut O, guest: u32, number: u32) -> Result<(), WriteFault>
    ensures { Writes (O.state out.old) (O.state out.new) (reply_line guest number) result }
{
    let mut guests = Buffer::new();
    let mut numbers = Buffer::new();
    let guest = guests.format(guest).as_bytes();
    let number = numbers.format(number).as_bytes();
    write_pieces(out, &[b"reply ", guest, b" ", number, b"\n"])
}

#[tactic(auto, unfolding(crate::specs::Report::version_line))]
fn write_version_line<O: Sink>(out: &mut O, versions: usize, version: u32) -> Result<(), WriteFault>
    ensures { Writes (O.state out.old) (O.state out.new) (version_line versions version) result }
{
    if versions <= 1 {
        return Ok(());
    }
    let mut numbers = Buffer::new();
    let version = numbers.format(version).as_bytes();
    write_pieces(out, &[b"version ", version, b"\n"])
}

/// The lines that stand before the report of a reply's run.
fn write_heading<O: Sink>(
    out: &mut O,
    versions: usize,
    guest: u32,
    number: u32,
    version: u32,
) -> Result<(), WriteFault>
    ensures { Writes (O.state out.old) (O.state out.new) (reply_line guest number ++ version_line versions version) result }
{
    write_reply_line(out, guest, number)?;
    write_version_line(out, versions, version)
}

#[tactic(auto, unfolding(crate::specs::Report::reply_report))]
fn write_reply<O: Sink>(
    out: &mut O,
    formats: &[Module],
    entries: &[Entry],
    reply: &Reply,
) -> Result<(), WriteFault>
    requires words { HasMessageWords reply.now }
    requires version { HasVersion formats.now entries.now reply.now }
    ensures { Writes (O.state out.old) (O.state out.new) (reply_report formats.now entries.now reply.now) result }
{
    let versions = formats.len();
    write_heading(out, versions, reply.guest, reply.number, reply.version)?;
    let at = reply.version as usize;
    write_run(out, &formats[at], entries[at], reply)
}

// Writes a reply to a page, and says whether there was room for it; where there was none the page is as before.
fn fits_page(page: &mut Page, formats: &[Module], entries: &[Entry], reply: &Reply) -> bool
    requires words { HasMessageWords reply.now }
    requires version { HasVersion formats.now entries.now reply.now }
    ensures fits { result ≡ true → page.new.written ≡ page.old.written ++ reply_report formats.now entries.now reply.now }
    ensures kept { result ≡ false → page.new.written ≡ page.old.written }
{
    let count = page.len();
    match write_reply(page, formats, entries, reply) {
        Ok(()) => true,
        Err(_) => {
            page.cut(count);
            false
        }
    }
}

// Puts a reply behind those of the page; where the page has no room for it, those go out first, and a reply that no page has
// room for goes out by its parts.
fn put_reply<O: Sink>(
    out: &mut O,
    page: &mut Page,
    formats: &[Module],
    entries: &[Entry],
    reply: &Reply,
) -> Result<(), WriteFault>
    requires words { HasMessageWords reply.now }
    requires version { HasVersion formats.now entries.now reply.now }
    ensures { Waits (O.state out.old) (O.state out.new) page.old.written page.new.written (reply_report formats.now entries.now reply.now) result }
{
    if fits_page(page, formats, entries, reply) {
        return Ok(());
    }
    hand_on(out, page)?;
    if fits_page(page, formats, entries, reply) {
        return Ok(());
    }
    write_reply(out, formats, entries, reply)
}

// Writes the reports of replies, which are gathered in a page, as there may be many.
fn write_replies<O: Sink>(
    out: &mut O,
    formats: &[Module],
    entries: &[Entry],
    replies: &[Reply],
) -> Result<(), WriteFault>
    requires words { All HasMessageWords replies.now }
    requires versions { All (HasVersion formats.now entries.now) replies.now }
    ensures { Writes (O.state out.old) (O.state out.new) (flat_map (reply_report formats.now entries.now) replies.now) result }
{
    let mut page = Page::blank();
    for reply in replies {
        put_reply(out, &mut page, formats, entries, reply)?;
    }
    write_all(out, page.written())
}

/// Writes the report of a host. For each reply, in the order given: a line with its guest and number, one with its version where
/// there are several, and then the report of the run that it tells of, by the names of its version's module and the cells of its
/// version's entry point, and its loads by the stretches of the post where it has a list of these. Then for each take: a line with its
/// ring and number, one with the count that the ring's first word gave, and what came of it; where a descriptor was taken that is the
/// report of its run, by the module and the entry point of `ring`, and where it was accepted, a line with its number, and the report of
/// its message's run under version 0. Of a descriptor nothing is written where no such module is given. Replies are gathered in a page
/// of 4,096 bytes, which goes out by one write, and so are takes. Takes no memory.
///
/// `WriteFault`: a write failed. What went out is a prefix of the report.
pub fn host_report<O: Sink>(
    formats: &[Module],
    entries: &[Entry],
    replies: &[Reply],
    ring: Option<(&Module, Entry)>,
    takes: &[Take],
    out: &mut O,
) -> Result<(), WriteFault>
    requires words { All HasMessageWords replies.now }
    requires versions { All (HasVersion formats.now entries.now) replies.now }
    requires taken { All HasTakenWords takes.now }
    ensures { Writes (O.state out.old) (O.state out.new) (host_report formats.now entries.now replies.now (option_map (λ r. (r.0.now, r.1)) ring.entry) takes.now) result }
{
    write_replies(out, formats, entries, replies)?;
    write_takes(out, formats, entries, ring, takes)
}
