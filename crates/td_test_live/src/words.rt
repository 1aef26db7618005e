//! Two guests, each with a reader's seat too, at a word that both store to, and each at a word of its own.

ghost use Rattle.std.specs.Prelude.{◌≡◌, ◌<◌};

use std::test::Fail;
use std::thread;
use td_words::seats::{GuestSeat, ReadSeat};
use td_words::shared::Shared;

const OPENED: u64 = 5;

const ROUNDS: u64 = 2000;
// Guest n, whose word is n, stores ROUNDS numbers, from n times this on.
const FIRST: u64 = 10_000;

const SECOND: u64 = 2 * FIRST;

// What one thread saw of word 0: the last number of each guest, and whether each value is the opening word, before any
// number, or a guest's number that isn't less than its last.
#[derive(Drop)]
struct Seen {
    first: u64,
    second: u64,
    right: bool,
}

impl Seen {
    fn is_next(&self, value: u64) -> bool {
        if value == OPENED {
            return self.first == FIRST && self.second == SECOND;
        }
        if value < SECOND {
            return self.first <= value && value < FIRST + ROUNDS;
        }
        self.second <= value && value < SECOND + ROUNDS
    }

    fn see(&mut self, value: u64) {
        self.right = self.right && self.is_next(value);
        if value >= SECOND {
            self.second = value;
        } else if value >= FIRST {
            self.first = value;
        }
    }
}

#[derive(Drop)]
struct Guest<'a> {
    shared: &'a Shared,
    seat: GuestSeat,
    reader: ReadSeat,
    word: u32,
    seen: Seen,
    // How often it loaded back what it had stored last to its own word.
    kept: u64,
    ghost stores: { seat.table ≡ shared.now.table },
    ghost reads: { reader.table ≡ shared.now.table },
    ghost inside: { word < shared.now.count },
    ghost some: { 0 < shared.now.count },
}

impl<'a> Guest<'a> {
    // Stores a number to both words, and loads them by both seats.
    fn store(&mut self, number: u64) {
        self.shared.store(&mut self.seat, 0, number);
        let back = self.shared.load_back(&mut self.seat, 0);
        self.seen.see(back);
        let read = self.shared.load(&mut self.reader, 0);
        self.seen.see(read);
        self.shared.store(&mut self.seat, self.word, number);
        if self.shared.load_back(&mut self.seat, self.word) == number {
            self.kept = self.kept.saturating_add(1);
        }
    }

    fn run(&mut self) {
        let from = u64::from(self.word).saturating_mul(FIRST);
        for round in 0..ROUNDS {
            self.store(from.saturating_add(round));
        }
    }
}

// Whether each guest saw what it may, and loaded back what it had stored.
fn are_right(guests: &[Guest<'_>]) -> bool {
    let mut right = true;
    for guest in guests {
        right = right && guest.seen.right && guest.kept == ROUNDS;
    }
    right
}

#[test]
fn what_is_loaded_was_stored_or_opened(rt: HostRuntime) -> Result<(), Fail> {
    let alloc = rt.alloc();
    let (shared, mut host) = Shared::open(alloc, &[OPENED, 0, 0])?;
    let mut guests = Vec::new(alloc);
    for word in 1..3 {
        guests.push(Guest {
            shared: &shared,
            seat: shared.split_guest(&mut host),
            reader: shared.split_reader(&mut host),
            word,
            seen: Seen {
                first: FIRST,
                second: SECOND,
                right: true,
            },
            kept: 0,
        })?;
    }
    thread::for_each_mut(&rt, guests.as_mut_slice(), 2, &|_, guest| guest.run());
    let right = are_right(guests.as_slice());
    drop(guests);
    let last = shared.close(host);
    let words = [last.word(1), last.word(2)];
    drop(last);
    assert!(rt; right);
    assert_eq!(rt; words, [FIRST + ROUNDS - 1, SECOND + ROUNDS - 1]);
    Ok(())
}
