//! A ring with room for one post, and tickets, in one thread.

use crate::posts::{Any, post};
use std::alloc::{AllocError, Global};
use std::test::Fail;
use td_ring::post::{Full, Post};
use td_ring::ring::Ring;
use td_ring::tickets::Tickets;
use td_words::shared::Shared;

fn told(alloc: Global, answer: Result<(), Full>) -> Result<String, AllocError> {
    match answer {
        Ok(()) => String::from_str(alloc, "posted"),
        Err(full) => format!(in alloc; "{full}: {}", full.post.name.number),
    }
}

fn number(taken: Option<Post>) -> u32 {
    match taken {
        Some(post) => post.name.number,
        None => 0,
    }
}

#[test]
fn a_full_ring_hands_the_post_back(rt: HostRuntime) -> Result<(), Fail> {
    let alloc = rt.alloc();
    let one = post(alloc, 1, 1)?;
    let two = post(alloc, 1, 2)?;
    let (shared, mut host) = Shared::open(alloc, &[])?;
    let (ring, mut posts, mut takes) = Ring::<Any>::new(alloc, 1)?;
    let guest = shared.split_guest(&mut host);
    let first = ring.post(&rt, &mut posts, &guest, one);
    let second = ring.post(&rt, &mut posts, &guest, two);
    let got = ring.take(&rt, &mut takes);
    let none = ring.take(&rt, &mut takes);
    ring.settle(&mut posts, takes);
    drop(posts);
    drop(ring);
    drop(guest);
    drop(host);
    drop(shared);
    assert_eq!(rt; (number(got), number(none)), (1, 0));
    let first = told(alloc, first)?;
    let second = told(alloc, second)?;
    assert_eq!(rt; first.as_str(), "posted");
    assert_eq!(rt; second.as_str(), "ring full: 2");
    Ok(())
}

#[test]
fn tickets_are_drawn_in_turn(rt: HostRuntime) -> Result<(), Fail> {
    let (tickets, mut first) = Tickets::new(rt.alloc())?;
    let mut second = tickets.split(&mut first);
    let drawn = [
        tickets.draw(&mut first),
        tickets.draw(&mut second),
        tickets.draw(&mut first),
    ];
    tickets.gather(&mut first, second);
    assert_eq!(rt; drawn, [0, 1, 2]);
    Ok(())
}
