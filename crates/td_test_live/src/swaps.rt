//! Threads that load which version is published, while one publishes.

ghost use Rattle.std.specs.Prelude.{◌≡◌};
ghost use Rattle.td_swap.specs.Seats.{IsOwn, IsPublishers};

use crate::versions::{codes_named, told_by};
use std::alloc::{AllocError, Global};
use std::sync::atomic::{AtomicU64, Ordering};
use std::test::Fail;
use std::thread;
use td_swap::codes::Codes;
use td_swap::seats::{PublishSeat, SwapSeat};

const LOOKERS: usize = 7;

const VERSIONS: u8 = 17;

const LAST: u32 = 16;

// How often a thread at most looks again for what another does.
const MOST_TURNS: u32 = 10_000_000;

// A thread's seat, the first and the last version that it met, and whether all that it met was right: no number fell, and each
// version was lent with its own code.
#[derive(Drop)]
struct Looker<'a> {
    codes: &'a Codes,
    seat: SwapSeat,
    first: Option<u32>,
    last: u32,
    right: bool,
    ghost own: { IsOwn codes.now seat },
}

impl<'a> Looker<'a> {
    fn look(&mut self) {
        let (number, said) = told_by(self.codes.current(&mut self.seat));
        self.right = self.right && number >= self.last && u32::from(said) == number;
        if self.first.is_none() {
            self.first = Some(number);
        }
        self.last = number;
    }

    // Looks until it meets the last version.
    fn run(&mut self, begun: &AtomicU64) {
        self.look();
        begun.fetch_add(1, Ordering::SeqCst);
        for _ in 0..MOST_TURNS {
            self.look();
            if self.last == LAST {
                break;
            }
            thread::yield_now();
        }
    }
}

#[derive(Drop)]
struct Publisher<'a> {
    codes: &'a Codes,
    seat: PublishSeat,
    ghost own: { IsPublishers codes.now seat },
}

impl<'a> Publisher<'a> {
    fn publish(&mut self) {
        if (self.seat.number() as usize).saturating_add(1) < self.codes.versions().len() {
            self.codes.publish(&mut self.seat);
        }
    }

    // Publishes all versions, once each thread has looked.
    fn run(&mut self, begun: &AtomicU64) {
        for _ in 0..MOST_TURNS {
            if begun.load(Ordering::SeqCst) == LOOKERS as u64 {
                break;
            }
            thread::yield_now();
        }
        for _ in 1..VERSIONS {
            self.publish();
            thread::yield_now();
        }
    }
}

#[derive(Drop)]
enum Actor<'a> {
    Looker(Looker<'a>),
    Publisher(Publisher<'a>),
}

impl<'a> Actor<'a> {
    fn run(&mut self, begun: &AtomicU64) {
        match self {
            Actor::Looker(looker) => looker.run(begun),
            Actor::Publisher(publisher) => publisher.run(begun),
        }
    }
}

fn actors<'a>(
    alloc: Global,
    codes: &'a Codes,
    publisher: PublishSeat,
    seat: &mut SwapSeat,
) -> Result<Vec<Actor<'a>>, AllocError>
    requires publisher { IsPublishers codes.now publisher }
    requires seat { IsOwn codes.now seat.old }
{
    let mut actors = Vec::new(alloc);
    for _ in 0..LOOKERS {
        actors.push(Actor::Looker(Looker {
            codes,
            seat: codes.split(seat),
            first: None,
            last: 0,
            right: true,
        }))?;
    }
    actors.push(Actor::Publisher(Publisher {
        codes,
        seat: publisher,
    }))?;
    Ok(actors)
}

// How many threads met nothing wrong, how many met the first version first and the last one last, and what was published last.
fn told(actors: &[Actor<'_>]) -> (usize, usize, u32) {
    let mut right = 0usize;
    let mut both = 0usize;
    let mut published = 0;
    for actor in actors {
        match actor {
            Actor::Looker(looker) => {
                let met = looker.first == Some(0) && looker.last == LAST;
                right = right.saturating_add(usize::from(looker.right));
                both = both.saturating_add(usize::from(met));
            }
            Actor::Publisher(publisher) => published = publisher.seat.number(),
        }
    }
    (right, both, published)
}

#[test]
fn each_thread_meets_the_first_version_and_the_last(rt: HostRuntime) -> Result<(), Fail> {
    let alloc = rt.alloc();
    let given = codes_named(alloc, VERSIONS);
    assert!(rt; given.is_some());
    let Some(given) = given else { return Ok(()) };
    assert_eq!(rt; given.len(), 17);
    let (codes, publisher, mut seat) = Codes::open(alloc, given)?;
    let mut actors = actors(alloc, &codes, publisher, &mut seat)?;
    let begun = &AtomicU64::new(0);
    thread::for_each_mut(
        &rt,
        actors.as_mut_slice(),
        LOOKERS + 1,
        &|_, actor| actor.run(begun),
    );
    let found = told(actors.as_slice());
    drop(actors);
    drop(seat);
    drop(codes);
    assert_eq!(rt; found, (LOOKERS, LOOKERS, LAST));
    Ok(())
}
