//! A small buffer, step by step.

use std::test::Fail;
use td_words::shared::Shared;

#[test]
fn a_store_is_loaded_by_guest_and_reader(rt: HostRuntime) -> Result<(), Fail> {
    let (shared, mut host) = Shared::open(rt.alloc(), &[7])?;
    let mut guest = shared.split_guest(&mut host);
    let mut reader = shared.split_reader(&mut host);
    let opened = shared.load(&mut reader, 0);
    shared.store(&mut guest, 0, 9);
    let back = shared.load_back(&mut guest, 0);
    let read = shared.load(&mut reader, 0);
    shared.gather_guest(&mut host, guest);
    shared.gather_reader(&mut host, reader);
    shared.learn(&mut host);
    let last = shared.close(host);
    let word = last.word(0);
    drop(last);
    assert_eq!(rt; [opened, back, read, word], [7, 9, 9, 9]);
    Ok(())
}

#[test]
fn the_last_store_of_two_guests_counts(rt: HostRuntime) -> Result<(), Fail> {
    let (shared, mut host) = Shared::open(rt.alloc(), &[0])?;
    let mut a = shared.split_guest(&mut host);
    let mut b = shared.split_guest(&mut host);
    shared.store(&mut a, 0, 1);
    shared.store(&mut b, 0, 2);
    let others = shared.load_back(&mut a, 0);
    shared.store(&mut a, 0, 3);
    let own = shared.load_back(&mut a, 0);
    shared.gather_guest(&mut host, a);
    shared.gather_guest(&mut host, b);
    let last = shared.close(host);
    let word = last.word(0);
    drop(last);
    assert_eq!(rt; [others, own, word], [2, 3, 3]);
    Ok(())
}
