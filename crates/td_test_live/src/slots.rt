//! A message whose words a guest stores to between two of its loads.

ghost use Rattle.std.specs.Prelude.{◌≡◌, ◌<◌, ◌^◌, length};
ghost use Rattle.td_stream.specs.Layouts.{AreWithin};

use crate::validated::{Compiled, ENTRY, Ran, compile, validated};
use std::alloc::Global;
use std::test::Fail;
use td_core::module::Module;
use td_io::MemorySink;
use td_live::gate::{Gate, PostName};
use td_live::message::LiveMessage;
use td_report::report::run_report;
use td_stream::layout::Layout;
use td_verify::verify::Verified;
use td_words::seats::GuestSeat;
use td_words::shared::Shared;

/// A message of nine bytes, of which the first and the last are tested: both its words are loaded, and none twice.
const GAP: &[u8] =
    b"entrypoint typedef struct _V(mutable UINT8 *got) { UINT8 x { x <= 10 } {:act *got = x;}; UINT8 gap[7]; UINT8 z { z == 0 }; } V;";

// The word to which a guest stores before load 1, what it stores, and the report.
const ROWS: &[(u32, u64, &str)] = &[
    (
        1,
        u64::MAX,
        "accept 9\nout got 5\nload 0 0000000000000005\nload 1 0000000000000000\n",
    ),
    (
        2,
        1,
        "reject constraint 8\nframe V.z 8\nout got 5\nload 0 0000000000000005\nload 1 0000000000000001\n",
    ),
];

// Stores a value to a word before load 1, counted from 0, by a guest's seat of its own.
#[derive(Drop)]
struct StoresMeanwhile<'a> {
    shared: &'a Shared,
    seat: GuestSeat,
    word: u32,
    value: u64,
    ghost own: { seat.table ≡ shared.now.table },
    ghost inside: { word < shared.now.count },
}

impl<'a> Gate for StoresMeanwhile<'a> {
    fn before_load(&mut self, _name: PostName, k: u32) {
        if k == 1 {
            self.shared.store(&mut self.seat, self.word, self.value);
        }
    }

    fn after_reply(&mut self, _name: PostName) {}

    fn before_step(&mut self, _guest: u32, _step: u32) {}
}

// Validates the message that lies so in a buffer of these words, to one of which a value is stored before load 1.
fn raced(
    alloc: Global,
    code: &Verified,
    words: &[u64],
    layout: &Layout,
    cells: &[u64],
    word: u32,
    value: u64,
) -> Option<Ran>
    requires few { length words.now < 2 ^ 32 }
    requires inside { AreWithin (length words.now) layout.now }
    requires stored { word < length words.now }
{
    let Ok((shared, mut host)) = Shared::open(alloc, words) else {
        return None;
    };
    let mut gate = StoresMeanwhile {
        shared: &shared,
        seat: shared.split_guest(&mut host),
        word,
        value,
    };
    let mut seat = shared.split_reader(&mut host);
    let message = LiveMessage {
        shared: &shared,
        layout,
        name: PostName {
            guest: 1,
            number: 1,
        },
    };
    validated(alloc, code, &message, &mut seat, cells, &mut gate)
}

// The report of a validation.
fn report(alloc: Global, m: &Module, ran: &Ran) -> Option<MemorySink> {
    let Ok(mut out) = MemorySink::with_room(alloc, 4096, Vec::new(alloc)) else {
        return None;
    };
    match run_report(&ran.outcome, m, ENTRY, &ran.loads, None, None, &mut out) {
        Ok(()) => Some(out),
        Err(_) => None,
    }
}

// The report of a validation of the message in the words 1 and 2 of three, by a module's code.
fn report_by(alloc: Global, compiled: &Compiled, word: u32, value: u64) -> Option<MemorySink>
    requires { word < 3 }
{
    let layout = Layout::words(1, 9);
    let ran = raced(
        alloc,
        &compiled.code,
        &[9, 5, 0],
        &layout,
        &[0],
        word,
        value,
    )?;
    let out = report(alloc, &compiled.checked, &ran);
    drop(ran);
    out
}

fn raced_report(alloc: Global, word: u32, value: u64) -> Option<MemorySink>
    requires { word < 3 }
{
    let compiled = compile(alloc, GAP)?;
    let out = report_by(alloc, &compiled, word, value);
    drop(compiled);
    out
}

// Whether this is the report; None where there is none.
fn is_reported(alloc: Global, word: u32, value: u64, wanted: &str) -> Option<bool>
    requires { word < 3 }
{
    let out = raced_report(alloc, word, value)?;
    let same = out.written() == wanted.as_bytes();
    drop(out);
    Some(same)
}

#[test]
fn a_store_counts_where_its_word_is_still_to_be_loaded(rt: HostRuntime) -> Result<(), Fail> {
    for (word, value, wanted) in ROWS {
        assert!(rt; *word < 3);
        assert_eq!(rt; is_reported(rt.alloc(), *word, *value, wanted), Some(true));
    }
    println!(rt; "{} rows", ROWS.len())?;
    Ok(())
}
