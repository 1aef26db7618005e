//! Made messages as values.

use crate::jobs::push_stores;
use std::alloc::Global;
use std::test::Fail;
use td_gen::make_job;
use td_job::named::NamedJob;

/// The entry point, the arguments and cells, the length, the count of words, the first and the last of them, and the stores.
fn message_line(alloc: Global, job: &NamedJob) -> Result<String, Fail> {
    let entry = str::from_utf8(job.entry.as_slice())?;
    let args = job.args.as_slice();
    let cells = job.cells.as_slice();
    let words = job.words.as_slice();
    let first = words.first().copied().unwrap_or(0);
    let last = words.last().copied().unwrap_or(0);
    let count = words.len();
    let length = job.length;
    let mut line = format!(in alloc;
        "{entry} {args:?} {cells:?} {length} {count} {first:016x} {last:016x}"
    )?;
    push_stores(alloc, job.stores.as_slice(), &mut line)?;
    Ok(line)
}

/// The line of the made message of a number.
fn made_line(alloc: Global, n: u32) -> Result<String, Fail> {
    let (_, job) = make_job(alloc, n)?;
    let line = message_line(alloc, &job);
    drop(job);
    line
}

const ROWS: &[(u32, &str)] = &[
    (
        0,
        "ETHERNET [] [0, 0, 0] 14 2 312a231c150e0700 000000084d463f38 store 1 0 ffffffffffffffff",
    ),
    (
        5,
        "IPV4 [33] [0, 0, 0, 0, 0] 33 5 0000000021000045 000000000000007b store 1 0 ffffffffffffffff",
    ),
    (
        2,
        "TCP [24] [0, 0, 0, 0, 0, 0] 24 3 6f68615a534c453e b405040200000000 store 1 0 ffffffffffffffff",
    ),
    (
        7,
        "RNDIS [57] [0, 0, 0, 0, 0] 57 8 0000003900000001 0000000000000061 store 1 0 ffffffffffffffff",
    ),
    (
        4_294_967_295,
        "RNDIS [1143] [0, 0, 0, 0, 0] 1143 143 0000047700000001 001b140d06fff8f1 store 1 0 ffffffffffffffff",
    ),
];

#[test]
fn each_message_is_the_one_of_its_number(rt: HostRuntime) -> Result<(), Fail> {
    for (n, wanted) in ROWS {
        let found = made_line(rt.alloc(), *n)?;
        assert_eq!(rt; found.as_str(), *wanted);
    }
    println!(rt; "{} rows", ROWS.len())?;
    Ok(())
}
