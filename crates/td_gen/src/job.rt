//! A message as a job, and the text of its modules.

ghost use Rattle.std.specs.Prelude.{◌≡◌, ◌+◌, ◌/◌, length, replicate, IfOk};
ghost use Rattle.td_gen.specs.Message.{IsMessage, texts};

use crate::bytes::message_bytes;
use crate::kind::{args_of, cell_count, format_of, payload_of};
use std::alloc::{AllocError, Global};
use td_formats::Format;
use td_job::named::NamedJob;
use td_job::words::fill_words;
use td_num::items::Items;
use td_num::text::Text;
use td_sched::store::PlannedStore;

/// What others store to each message: all ones to its first word, before its second load. So a second load of that word
/// would show.
pub const STORE: PlannedStore = PlannedStore {
    before: 1,
    word: 0,
    value: 0xffff_ffff_ffff_ffff,
};

/// So many zeros. `AllocError`: there was no memory for them.
fn zeros(alloc: Global, count: usize) -> Result<Items<u64>, AllocError>
    ensures { IfOk result (λ numbers. numbers ≡ replicate count 0) }
{
    Ok(Items::of(vec![in alloc; 0u64; count]?))
}

/// Message n as a job, whose entry point is that of its format. `AllocError`: there was no memory for it.
pub fn message_job(alloc: Global, n: u32) -> Result<NamedJob, AllocError>
    ensures message { IfOk result (IsMessage n) }
    ensures sized { IfOk result (λ job. length job.words ≡ (job.length + 7) / 8) }
{
    let format = format_of(n);
    let bytes = message_bytes(alloc, n)?;
    let length = bytes.len() as u32;
    Ok(NamedJob {
        entry: Text::copy_of(alloc, format.entry())?,
        args: args_of(alloc, format, payload_of(n))?,
        cells: zeros(alloc, cell_count(format))?,
        words: fill_words(alloc, bytes.as_slice(), length.div_ceil(8))?,
        length,
        stores: Items::copy_of(alloc, &[STORE])?,
    })
}

/// The texts of the four formats, one after the other: a module text with the four entry points. `AllocError`: there was no
/// memory for it.
fn all_texts(alloc: Global) -> Result<Text, AllocError>
    ensures { IfOk result (λ text. text ≡ texts) }
{
    let mut text = Vec::new(alloc);
    text.extend_from_slice(Format::Ethernet.text())?;
    text.extend_from_slice(Format::Ipv4.text())?;
    text.extend_from_slice(Format::Tcp.text())?;
    text.extend_from_slice(Format::Rndis.text())?;
    Ok(Text::of(text))
}

/// A module text with the four formats, and message n for it: large inputs, of which any number can be made. `AllocError`:
/// there was no memory for them.
pub fn make_job(alloc: Global, n: u32) -> Result<(Text, NamedJob), AllocError>
    ensures text { IfOk result (λ made. made.0 ≡ texts) }
    ensures message { IfOk result (λ made. IsMessage n made.1) }
{
    let text = all_texts(alloc)?;
    let job = message_job(alloc, n)?;
    Ok((text, job))
}
