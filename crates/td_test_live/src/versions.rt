//! Codes that are published one after the other, in one thread. The codes do nothing; a test tells them apart by the one name
//! that each has.

use std::alloc::{AllocError, Global};
use std::test::Fail;
use td_core::full_name::FullName;
use td_ir::code::Code;
use td_ir::tables::Parts;
use td_num::items::Items;
use td_num::text::Text;
use td_swap::codes::Codes;
use td_swap::version::Version;
use td_verify::verify::{Verified, verify};

/// The parts of a code that has a letter as its one name, and nothing else.
fn parts_named(alloc: Global, letter: u8) -> Result<Parts, AllocError> {
    let mut names = Items::new(alloc);
    names.push(FullName::alone(Text::copy_of(alloc, &[letter])?))?;
    Ok(Parts {
        names,
        sites: Items::new(alloc),
        maps: Items::new(alloc),
        sets: Items::new(alloc),
        routines: Items::new(alloc),
        entries: Items::new(alloc),
        instructions: Items::new(alloc),
    })
}

fn code_named(alloc: Global, letter: u8) -> Option<Verified> {
    let parts = parts_named(alloc, letter).ok()?;
    let Ok(code) = Code::new(parts) else {
        return None;
    };
    verify(alloc, code).ok()
}

/// So many codes, named A, B, C ..
pub(crate) fn codes_named(alloc: Global, count: u8) -> Option<Vec<Verified>> {
    let mut codes = Vec::new(alloc);
    for number in 0..count {
        codes
            .push(code_named(alloc, b'A'.wrapping_add(number))?)
            .ok()?;
    }
    Some(codes)
}

/// A version's number, and which number its code's name says; 255 where it says none.
pub(crate) fn told_by(version: &Version) -> (u32, u8) {
    let names = version.code.code().parts().names.as_slice();
    let said = match names.first() {
        Some(name) => match name.pieces().own.first() {
            Some(letter) => letter.wrapping_sub(b'A'),
            None => 255,
        },
        None => 255,
    };
    (version.number, said)
}

#[test]
fn what_is_published_is_loaded_next(rt: HostRuntime) -> Result<(), Fail> {
    let alloc = rt.alloc();
    let given = codes_named(alloc, 2);
    assert!(rt; given.is_some());
    let Some(given) = given else { return Ok(()) };
    assert_eq!(rt; given.len(), 2);
    let (codes, mut publisher, mut seat) = Codes::open(alloc, given)?;
    let mut other = codes.split(&mut seat);
    let opened = publisher.number();
    let before = told_by(codes.current(&mut other));
    let published = codes.publish(&mut publisher);
    let after = [
        told_by(codes.current(&mut other)),
        told_by(codes.current(&mut other)),
        told_by(codes.current(&mut seat)),
    ];
    codes.gather(&mut seat, other);
    let last = publisher.number();
    drop(seat);
    drop(publisher);
    drop(codes);
    assert_eq!(rt; (opened, before, published), (0, (0, 0), 1));
    assert_eq!(rt; after, [(1, 1); 3]);
    assert_eq!(rt; last, 1);
    Ok(())
}
