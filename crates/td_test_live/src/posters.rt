//! Threads that post to a ring and take from it.

ghost use Rattle.std.specs.Prelude.{◌≡◌, []};
ghost use Rattle.td_ring.specs.Heads.{HasHead};
ghost use Rattle.td_words.specs.History.{stores};

use crate::posts::{Any, post};
use std::alloc::{AllocError, Global};
use std::process::Abort;
use std::sync::Wait;
use std::test::Fail;
use std::thread;
use td_posts::name::PostName;
use td_ring::passes::{PostPass, TakePass};
use td_ring::post::Post;
use td_ring::ring::Ring;
use td_words::seats::{GuestSeat, HostSeat};
use td_words::shared::Shared;

const HANDS: usize = 8;

const POSTERS: u32 = 4;

const EACH: u32 = 25_000;

const POSTS: usize = 100_000;

const ROOM: u32 = 64;
// So often a thread tries again.
const TURNS: u32 = 100_000_000;

// A guest that posts.
#[derive(Drop)]
struct Poster<'a> {
    ring: &'a Ring<Any>,
    number: u32,
    seat: GuestSeat,
    pass: PostPass,
    ghost own: { pass.queue ≡ ring.now.queue },
    ghost fresh: { stores seat.view.steps ≡ [] },
}

impl<'a> Poster<'a> {
    // Posts, trying again while the ring is full. False: it stayed full.
    fn post_one(&mut self, rt: &impl Wait, post: Post) -> bool
        requires { post.made ≡ 0 }
    {
        let mut waiting = post;
        for _ in 0..TURNS {
            match self.ring.post(rt, &mut self.pass, &self.seat, waiting) {
                Ok(()) => return true,
                Err(full) => waiting = full.post,
            }
            thread::yield_now();
        }
        false
    }

    // Makes all posts of its own, in order, as far as there is memory.
    fn post_all(&mut self, rt: &impl Wait, alloc: Global) {
        for number in 1..=EACH {
            let Ok(post) = post(alloc, self.number, number) else {
                return;
            };
            if !self.post_one(rt, post) {
                return;
            }
        }
    }
}

// What takes posts, and their names.
#[derive(Drop)]
struct Taker<'a> {
    ring: &'a Ring<Any>,
    pass: TakePass,
    taken: Vec<PostName>,
    ghost own: { pass.queue ≡ ring.now.queue },
}

impl<'a> Taker<'a> {
    // Takes one post, trying again while the ring is empty. False: it stayed empty.
    fn take_one(&mut self, rt: &impl Wait) -> bool {
        for _ in 0..TURNS {
            if let Some(post) = self.ring.take(rt, &mut self.pass) {
                let _kept = self.taken.push(post.name);
                return true;
            }
            thread::yield_now();
        }
        false
    }

    // Takes as many posts as one poster makes.
    fn take_all(&mut self, rt: &impl Wait) {
        for _ in 0..EACH {
            if !self.take_one(rt) {
                return;
            }
        }
    }
}

// What runs in a thread.
#[derive(Drop)]
enum Hand<'a> {
    Poster(Poster<'a>),
    Taker(Taker<'a>),
}

impl<'a> Hand<'a> {
    fn run(&mut self, rt: &impl Wait, alloc: Global) {
        match self {
            Hand::Poster(poster) => poster.post_all(rt, alloc),
            Hand::Taker(taker) => taker.take_all(rt),
        }
    }
}

#[tactic(auto, using(crate::proofs::Still::still_head))]
fn hands<'a>(
    alloc: Global,
    shared: &Shared,
    host: &mut HostSeat,
    ring: &'a Ring<Any>,
    posts: &mut PostPass,
    takes: &mut TakePass,
) -> Result<Vec<Hand<'a>>, AllocError>
    requires seat { host.old.table ≡ shared.now.table }
    requires own { (posts.old.queue ≡ ring.now.queue) × (takes.old.queue ≡ ring.now.queue) }
    requires heads { HasHead posts.old.view.put_head × HasHead takes.old.view.take_head }
{
    let mut hands = Vec::new(alloc);
    for number in 1..=POSTERS {
        hands.push(Hand::Taker(Taker {
            ring,
            pass: ring.split_take(takes),
            taken: Vec::with_capacity(alloc, EACH as usize)?,
        }))?;
        hands.push(Hand::Poster(Poster {
            ring,
            number,
            seat: shared.split_guest(host),
            pass: ring.split_post(posts),
        }))?;
    }
    Ok(hands)
}

// Marks each post taken; the numbers of each guest's rise. False: they don't, or one was marked before, or is none of the
// posts.
fn mark(taken: &[PostName], marks: &mut [bool]) -> bool {
    let mut last = [0; 5];
    for name in taken {
        let (guest, number) = (name.guest, name.number);
        if guest < 1 || guest > POSTERS || number > EACH || number <= last[guest as usize] {
            return false;
        }
        last[guest as usize] = number;
        let place = (guest - 1) * EACH + number - 1;
        match marks.get_mut(place as usize) {
            Some(mark) if !*mark => *mark = true,
            _ => return false,
        }
    }
    true
}

// Each taker took as many posts as one poster makes, and none was taken twice.
fn check_taken(rt: &impl Abort, alloc: Global, hands: &[Hand<'_>]) -> Result<(), Fail> {
    let mut marks = vec![in alloc; false; POSTS]?;
    for hand in hands {
        if let Hand::Taker(taker) = hand {
            assert_eq!(rt; taker.taken.len(), EACH as usize);
            assert!(rt; mark(taker.taken.as_slice(), marks.as_mut_slice()));
        }
    }
    Ok(())
}

#[test]
fn each_post_is_taken_once_and_each_posters_in_order(rt: HostRuntime) -> Result<(), Fail> {
    let alloc = rt.alloc();
    let (shared, mut host) = Shared::open(alloc, &[])?;
    let (ring, mut posts, mut takes) = Ring::<Any>::new(alloc, ROOM)?;
    let mut hands = hands(alloc, &shared, &mut host, &ring, &mut posts, &mut takes)?;
    thread::for_each_mut(
        &rt,
        hands.as_mut_slice(),
        HANDS,
        &|_, hand| hand.run(&rt, alloc),
    );
    let checked = check_taken(&rt, alloc, hands.as_slice());
    drop(hands);
    drop(takes);
    drop(posts);
    drop(ring);
    drop(host);
    drop(shared);
    checked
}
