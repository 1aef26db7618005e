//! Served jobs under gates.

use crate::gates::{Notes, Place, gates_at};
use std::alloc::{AllocError, AllocGlobal, Global};
use std::process::Abort;
use std::sync::Wait;
use std::sync::atomic::Ordering;
use std::test::Fail;
use std::thread::Threads;
use td_cli::run_tool;
use td_cli_host::gates::gates_of;
use td_cli_host::laws::served_can_be_shown;
use td_cli_host::rings::{Readers, job_readers};
use td_cli_host::served_input::job_codes;
use td_cli_input::host::parse_host_input;
use td_core::module::Entry;
use td_host::job::serve_job;
use td_io::{MemorySink, MemorySource};
use td_posts::name::PostName;
use td_report_host::report::host_report;

/// A message of two loads, which one guest posts twice before it stores to its first word what that holds.
const TWO_MESSAGES: &str = concat!(
    "entrypoint typedef struct _T { UINT64 a { a == 1 }; UINT64 b { b == 2 }; } T;\n%%\n",
    "{\"entry\":\"T\",\"buffer\":\"01000000000000000200000000000000\",\"workers\":2,\"guests\":[{\"script\":",
    "[[\"post\",0,16],[\"post\",0,16],[\"store\",0,\"0100000000000000\"]]}]}\n"
);

const TWO_ACCEPTED: &str = concat!(
    "reply 1 1\naccept 16\nload 0 0000000000000001\nload 1 0000000000000002\n",
    "reply 1 2\naccept 16\nload 0 0000000000000001\nload 1 0000000000000002\n"
);

/// Two guests, of which each stores to a word of its own and posts it.
const OWN_WORDS: &str = concat!(
    "entrypoint typedef struct _H(mutable UINT8 *got) { UINT8 x {:act *got = x;}; } H;\n%%\n",
    "{\"entry\":\"H\",\"buffer\":\"01000000000000000700000000000000\",\"workers\":1,\"guests\":[",
    "{\"script\":[[\"store\",0,\"0900000000000000\"],[\"post\",0,1]]},",
    "{\"script\":[[\"store\",1,\"0900000000000000\"],[\"post\",1,1]]}]}\n"
);

const OWN_STORES: &str = concat!(
    "reply 1 1\naccept 1\nout got 9\nload 0 0000000000000009\n",
    "reply 2 1\naccept 1\nout got 9\nload 0 0000000000000009\n"
);

// The post of a guest with this number.
fn post(guest: u32, number: u32) -> PostName {
    PostName { guest, number }
}

// What the tool writes for an input of `host`, under gates that hold at these places; the status is to be 0.
fn tool_report<R: AllocGlobal + Threads + Wait + Sync + Abort>(
    rt: &R,
    notes: &Notes,
    input: &str,
    places: &[Place],
    until: PostName,
    out: &mut MemorySink,
) -> Result<(), Fail> {
    let alloc = rt.alloc();
    let words = [
        String::from_str(alloc, "td")?,
        String::from_str(alloc, "host")?,
    ];
    let mut source = MemorySource::over(input.as_bytes().to_vec(alloc)?, Vec::new(alloc));
    let mut err = MemorySink::with_room(alloc, 4096, Vec::new(alloc))?;
    let gates = gates_at(alloc, rt, notes, places, until)?;
    let status = run_tool(rt, &words, &mut source, out, &mut err, gates);
    assert_eq!(rt; err.written(), b"".as_slice());
    assert_eq!(rt; status.number(), 0);
    Ok(())
}

// What td_host's `serve_job` makes of an input, under gates that hold at these places.
fn host_answer<R: AllocGlobal + Threads + Wait + Sync + Abort>(
    rt: &R,
    notes: &Notes,
    input: &str,
    places: &[Place],
    until: PostName,
    out: &mut MemorySink,
) -> Result<(), Fail> {
    served_can_be_shown();
    assert!(rt; input.len() < 4096);
    let alloc = rt.alloc();
    let gates = gates_at(alloc, rt, notes, places, until)?;
    let Ok(given) = parse_host_input(alloc, input.as_bytes()) else {
        return Err(AllocError.into());
    };
    let gates = gates_of(gates, given.job.workers as usize, given.job.guests.len())?;
    let codes = job_codes(alloc, &given.job)?;
    let Ok(Readers { module, descrs }) = job_readers(alloc, &given.job) else {
        return Err(AllocError.into());
    };
    let ring = match &module {
        None => None,
        Some(module) => Some((module, Entry { number: 0 })),
    };
    let served = serve_job(rt, alloc, codes, given.job, descrs, gates)?;
    let written = host_report(
        served.job.formats.as_slice(),
        served.job.entries.as_slice(),
        served.replies.as_slice(),
        ring,
        served.takes.as_slice(),
        out,
    );
    assert!(rt; written.is_ok());
    Ok(())
}

// Whether a hold ended at its limit, and how often a gate held; each answer found room.
fn check_notes(rt: &impl Abort, notes: &Notes, gave_up: bool, holds: usize) {
    assert!(rt; !notes.unnoted.load(Ordering::SeqCst));
    assert_eq!(rt; notes.gave_up.load(Ordering::SeqCst), gave_up);
    assert_eq!(rt; notes.holds.load(Ordering::SeqCst), holds);
}

#[test]
fn guests_and_workers_run_at_the_same_time(rt: HostRuntime) -> Result<(), Fail> {
    let notes = Notes::with_room(rt.alloc(), 16)?;
    let places = [
        Place::Load(post(1, 1), 1),
        Place::Step { guest: 1, step: 3 },
    ];
    let mut out = MemorySink::with_room(rt.alloc(), 4096, Vec::new(rt.alloc()))?;
    tool_report(&rt, &notes, TWO_MESSAGES, &places, post(1, 2), &mut out)?;
    assert_eq!(rt; out.written(), TWO_ACCEPTED.as_bytes());
    check_notes(&rt, &notes, false, 2);
    Ok(())
}

#[test]
fn a_held_guest_gets_no_reply(rt: HostRuntime) -> Result<(), Fail> {
    let notes = Notes::with_room(rt.alloc(), 16)?;
    let places = [Place::Step { guest: 2, step: 1 }];
    let mut out = MemorySink::with_room(rt.alloc(), 4096, Vec::new(rt.alloc()))?;
    tool_report(&rt, &notes, OWN_WORDS, &places, post(2, 1), &mut out)?;
    assert_eq!(rt; out.written(), OWN_STORES.as_bytes());
    check_notes(&rt, &notes, true, 1);
    Ok(())
}

#[test]
fn nor_does_it_where_a_host_serves(rt: HostRuntime) -> Result<(), Fail> {
    let notes = Notes::with_room(rt.alloc(), 16)?;
    let places = [Place::Step { guest: 2, step: 1 }];
    let mut out = MemorySink::with_room(rt.alloc(), 4096, Vec::new(rt.alloc()))?;
    host_answer(&rt, &notes, OWN_WORDS, &places, post(2, 1), &mut out)?;
    assert_eq!(rt; out.written(), OWN_STORES.as_bytes());
    check_notes(&rt, &notes, true, 1);
    Ok(())
}
