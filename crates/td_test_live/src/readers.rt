//! Readers that validate messages to which guests keep storing.

ghost use Rattle.std.specs.Prelude.{◌≡◌, ◌+◌, ◌≤◌};

use crate::validated::{ENTRY, Ran, compile, validated};
use std::alloc::{AllocError, Global};
use std::sync::atomic::{AtomicU64, Ordering};
use std::test::Fail;
use std::thread;
use td_core::module::Module;
use td_live::gate::{OpenGate, PostName};
use td_live::message::LiveMessage;
use td_meaning_plain::meaning::meaning;
use td_stream::layout::Layout;
use td_stream::load::Load;
use td_verify::verify::Verified;
use td_words::seats::{GuestSeat, HostSeat, ReadSeat};
use td_words::shared::Shared;

/// Which words of a message are loaded depends on what others held.
const HOPPING: &[u8] =
    b"typedef struct _I(mutable UINT8 *last) { UINT8 k {:act *last = k;}; UINT8 d[k]; } I; entrypoint typedef struct _Y(mutable UINT8 *last) { I(last) i[:byte-size 2000]; UINT8 z { z <= 15 }; } Y;";

const READERS: u32 = 16;

const GUESTS: u32 = 16;
// Each reader has a slot of its own.
const SLOT_WORDS: u32 = 256;

const LENGTH: u32 = 2001;

const MESSAGES: u32 = 10;
// A guest stores until all readers are done, but no more often than this.
const MOST_STORES: u32 = 1_000_000;

#[derive(Drop)]
struct Reader<'a> {
    shared: &'a Shared,
    seat: ReadSeat,
    base: u32,
    ran: Vec<Ran>,
    ghost own: { seat.table ≡ shared.now.table },
    ghost inside: { base + 251 ≤ shared.now.count },
}

impl<'a> Reader<'a> {
    fn validate(&mut self, alloc: Global, code: &Verified, number: u32) -> Option<Ran> {
        // (the number of words is below 2^32, so the message has places below 2^35)
        let _words = self.shared.count();
        let layout = Layout::words(self.base, LENGTH);
        let message = LiveMessage {
            shared: self.shared,
            layout: &layout,
            name: PostName { guest: 1, number },
        };
        validated(alloc, code, &message, &mut self.seat, &[0], &mut OpenGate)
    }

    fn validate_all(&mut self, alloc: Global, code: &Verified) -> Option<()> {
        for number in 0..MESSAGES {
            let ran = self.validate(alloc, code, number)?;
            self.ran.push(ran).ok()?;
        }
        Some(())
    }

    // A thread has code of its own.
    fn run(&mut self, alloc: Global) -> Option<()> {
        let compiled = compile(alloc, HOPPING)?;
        let done = self.validate_all(alloc, &compiled.code);
        drop(compiled);
        done
    }
}

#[derive(Drop)]
struct Guest<'a> {
    shared: &'a Shared,
    seat: GuestSeat,
    // What the next store is made of.
    state: u64,
    ghost own: { seat.table ≡ shared.now.table },
    ghost all: { shared.now.count ≡ 4096 },
}

impl<'a> Guest<'a> {
    // Stores some word of eight numbers below 32 somewhere.
    fn store(&mut self) {
        self.state = self
            .state
            .wrapping_mul(6_364_136_223_846_793_005)
            .wrapping_add(1);
        let word = (self.state >> 40) % 4096;
        let value = (self.state >> 1) & 0x1f1f_1f1f_1f1f_1f1f;
        self.shared.store(&mut self.seat, word as u32, value);
    }

    fn run(&mut self, done: &AtomicU64) {
        for _ in 0..MOST_STORES {
            if done.load(Ordering::SeqCst) >= u64::from(READERS) {
                return;
            }
            self.store();
        }
    }
}

#[derive(Drop)]
enum Actor<'a> {
    Reader(Reader<'a>),
    Guest(Guest<'a>),
}

impl<'a> Actor<'a> {
    fn run(&mut self, alloc: Global, done: &AtomicU64) {
        match self {
            Actor::Reader(reader) => {
                let _done = reader.run(alloc);
                done.fetch_add(1, Ordering::SeqCst);
            }
            Actor::Guest(guest) => guest.run(done),
        }
    }
}

// Writes the bytes of the loaded words over those of a message.
fn put_loads(bytes: &mut [u8], loads: &[Load]) {
    for load in loads {
        let from = (load.word as usize).saturating_mul(8);
        for (at, byte) in load.value.to_le_bytes().into_iter().enumerate() {
            if let Some(place) = bytes.get_mut(from.saturating_add(at)) {
                *place = byte;
            }
        }
    }
}

// Whether the outcome of a validation is what the module means on a message that carries its loads, and is 0 elsewhere.
fn is_meant(alloc: Global, m: &Module, ran: &Ran) -> Option<bool> {
    let mut bytes = vec![in alloc; 0; LENGTH as usize].ok()?;
    put_loads(bytes.as_mut_slice(), ran.loads.as_slice());
    let plain = meaning(alloc, m, ENTRY, &[], &[0], bytes.as_slice()).ok()?;
    let outcome = &ran.outcome;
    let same = outcome.verdict == plain.verdict
        && outcome.trace.as_slice() == plain.trace.as_slice()
        && outcome.cells.as_slice() == plain.cells.as_slice();
    drop(plain);
    Some(same)
}

// How many validations have the outcome that the module means; None where there is no memory.
fn count_meant(alloc: Global, m: &Module, actors: &[Actor<'_>]) -> Option<u32> {
    let mut count = 0u32;
    for actor in actors {
        if let Actor::Reader(reader) = actor {
            for ran in &reader.ran {
                count = count.saturating_add(u32::from(is_meant(alloc, m, ran)?));
            }
        }
    }
    Some(count)
}

fn count_right(alloc: Global, actors: &[Actor<'_>]) -> Option<u32> {
    let compiled = compile(alloc, HOPPING)?;
    let count = count_meant(alloc, &compiled.checked, actors);
    drop(compiled);
    count
}

fn make_actors<'a>(
    alloc: Global,
    shared: &'a Shared,
    host: &mut HostSeat,
) -> Result<Vec<Actor<'a>>, AllocError>
    requires own { host.old.table ≡ shared.now.table }
    requires all { shared.now.count ≡ 4096 }
{
    let mut actors = Vec::new(alloc);
    for number in 0..READERS {
        actors.push(Actor::Reader(Reader {
            shared,
            seat: shared.split_reader(host),
            base: number * SLOT_WORDS,
            ran: Vec::new(alloc),
        }))?;
    }
    for number in 0..GUESTS {
        actors.push(Actor::Guest(Guest {
            shared,
            seat: shared.split_guest(host),
            state: u64::from(number),
        }))?;
    }
    Ok(actors)
}

#[test]
fn each_outcome_is_the_meaning_of_what_was_loaded(rt: HostRuntime) -> Result<(), Fail> {
    let alloc = rt.alloc();
    let (shared, mut host) = Shared::open(alloc, &[0; 4096])?;
    let mut actors = make_actors(alloc, &shared, &mut host)?;
    let done = &AtomicU64::new(0);
    thread::for_each_mut(
        &rt,
        actors.as_mut_slice(),
        32,
        &|_, actor| actor.run(alloc, done),
    );
    let right = count_right(alloc, actors.as_slice());
    drop(actors);
    drop(host);
    drop(shared);
    assert_eq!(rt; right, Some(READERS * MESSAGES));
    Ok(())
}
