//! Run jobs as values, and errors as they print; what is refused stands in `cases/jobs/`.

ghost use Rattle.td_front.specs.Checked.{IsChecked};

use std::alloc::{AllocError, Global};
use std::test::Fail;
use td_core::module::Module;
use td_front::check_module;
use td_job::run_job::{RunJob, read_run_job};
use td_sched::store::PlannedStore;

/// A module with the entry points `P` and `Q`, of which the second has a parameter of 16 bits and a pointer's cell.
const MODULE: &[u8] =
    b"entrypoint typedef struct _P { UINT16 a; UINT16BE b { b >= 3 }; } P; entrypoint typedef struct _Q(UINT16 v, mutable PUINT8 *c) { UINT8 n; UINT8 d[n]; } Q;";

/// An entry point's place, the arguments, cells and words, the length, each message word by its stretch and its word, where the
/// job has a layout, each store, and what was written, where the message is of a value.
fn job_line(alloc: Global, job: &RunJob) -> Result<String, AllocError> {
    let entry = job.entry.number;
    let args = job.args.as_slice();
    let cells = job.cells.as_slice();
    let words = job.words.as_slice();
    let length = job.length;
    let mut line = format!(in alloc; "{entry} {args:?} {cells:?} {words:?} {length}")?;
    push_words(alloc, job, &mut line)?;
    push_stores(alloc, job.stores.as_slice(), &mut line)?;
    push_written(alloc, job, &mut line)?;
    Ok(line)
}

fn push_words(alloc: Global, job: &RunJob, line: &mut String) -> Result<(), AllocError> {
    let Some(layout) = &job.layout else {
        return Ok(());
    };
    for number in 0..layout.count() {
        let (stretch, word) = layout.word(number);
        let part = format!(in alloc; " word {stretch} {word}")?;
        line.push_str(part.as_str())?;
    }
    Ok(())
}

/// The number, the word and the value of each store.
pub(crate) fn push_stores(
    alloc: Global,
    stores: &[PlannedStore],
    line: &mut String,
) -> Result<(), AllocError> {
    for store in stores {
        let before = store.before;
        let word = store.word;
        let value = store.value;
        let part = format!(in alloc; " store {before} {word} {value:016x}")?;
        line.push_str(part.as_str())?;
    }
    Ok(())
}

fn push_written(alloc: Global, job: &RunJob, line: &mut String) -> Result<(), AllocError> {
    if let Some(bytes) = job.written_bytes() {
        let part = format!(in alloc; " written {bytes:?}")?;
        line.push_str(part.as_str())?;
    }
    Ok(())
}

// Where a value is let go, each way through its variants is a way through the function. So what has many is let go by a call.

/// The line of a job, or of what is wrong with it.
fn answer_by(alloc: Global, job: &[u8], m: &Module) -> Result<String, AllocError>
    requires { IsChecked m.now }
{
    match read_run_job(alloc, job, m) {
        Ok(job) => {
            let line = job_line(alloc, &job);
            drop(job);
            line
        }
        Err(error) => {
            let line = error.to_string(alloc);
            drop(error);
            line
        }
    }
}

fn answer(alloc: Global, job: &[u8]) -> Result<String, Fail> {
    let Ok(m) = check_module(alloc, MODULE) else {
        return Err(Fail::new("no module"));
    };
    let line = answer_by(alloc, job, &m);
    drop(m);
    Ok(line?)
}

const ROWS: &[(&[u8], &str)] = &[
    (
        b"{\"entry\":\"Q\",\"args\":[65535],\"cells\":[4294967295],\"bytes\":\"010000000000008007000000000000000900\",\"length\":12,\"stores\":[[1,0,\"0100000000000080\"],[0,1,\"ff00000000000000\"]]}",
        "1 [65535] [4294967295] [9223372036854775809, 7] 12 store 1 0 8000000000000001 store 0 1 00000000000000ff",
    ),
    (b"\xff", "J1 job"),
    (b"{}", "J2 entry"),
    (
        b"{\"entry\":\"Q\",\"args\":[0],\"bytes\":\"\",\"length\":0}",
        "1 [0] [0] [] 0",
    ),
    (
        b"{\"entry\":\"P\",\"bytes\":\"010000000000008007\",\"length\":12,\"stretches\":[[6,3],[4,0],[0,9]],\"stores\":[[1,1,\"0100000000000080\"]]}",
        "0 [] [] [9223372036854775809, 7] 12 word 0 0 word 0 1 word 2 0 word 2 1 store 1 1 8000000000000001",
    ),
    (b"{\"entry\":\"Q\",\"args\":[65536]}", "J4 args[0]"),
    (
        b"{\"entry\":\"P\",\"bytes\":\"\",\"length\":0,\"z\":1}",
        "J2 z",
    ),
    (
        b"{\"entry\":\"P\",\"bytes\":\"00\",\"length\":1,\"stores\":[[0,0,\"0100000000000080\"],[0,0,\"\"]]}",
        "J5 stores[1]",
    ),
    (
        b"{\"entry\":\"P\",\"value\":[1,3],\"stores\":[[0,0,\"0100000000000080\"]]}",
        "0 [] [] [50331649] 4 store 0 0 8000000000000001 written [1, 0, 0, 3]",
    ),
    (
        b"{\"entry\":\"Q\",\"args\":[1],\"value\":[2,\"aAfF\"]}",
        "1 [1] [0] [16755202] 3 written [2, 170, 255]",
    ),
    (b"{\"entry\":\"P\",\"value\":[1,2]}", "J10 value[1] E3"),
    (b"{\"entry\":\"P\",\"value\":[1]}", "J10 value E1"),
    (b"{\"entry\":\"P\",\"value\":[65536,3]}", "J10 value[0] E2"),
    (
        b"{\"entry\":\"Q\",\"args\":[1],\"value\":[2,\"aa\"]}",
        "J10 value[1] E4",
    ),
    (
        b"{\"entry\":\"P\",\"value\":[1,3],\"stores\":[[0,1,\"0100000000000080\"]]}",
        "J6 stores[0]",
    ),
    (
        b"{\"entry\":\"P\",\"value\":[true,\"z\"],\"length\":null}",
        "J2 length",
    ),
    (b"{\"entry\":\"P\",\"value\":[\"z\",true]}", "J2 value"),
    (b"{\"entry\":\"P\",\"value\":[\"z\",1]}", "J5 value"),
];

#[test]
fn each_job_has_its_answer(rt: HostRuntime) -> Result<(), Fail> {
    for (job, wanted) in ROWS {
        let found = answer(rt.alloc(), job)?;
        assert_eq!(rt; found.as_str(), *wanted);
    }
    println!(rt; "{} rows", ROWS.len())?;
    Ok(())
}
