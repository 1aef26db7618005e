//! A call of the tool on a source that gives one byte at a read, and on sinks that keep nothing.

use std::alloc::{AllocError, Global};
use std::io;
use std::test::Fail;
use td_cli::{Status, run_alone};
use td_io::{MemorySink, QuietSink, QuietSource, ReaderSource};

const INPUT: &str =
    "entrypoint typedef struct _P { UINT16 x; UINT16BE y { y >= 3 }; } P;\n%%\n{\"entry\":\"P\",\"length\":4,\"bytes\":\"01000003\"}\n";

const REPORT: &str = "accept 4\nload 0 0000000003000001\n";

// The words of a command line.
fn words_of(alloc: Global, command: &str) -> Result<[String; 2], AllocError> {
    Ok([
        String::from_str(alloc, "td")?,
        String::from_str(alloc, command)?,
    ])
}

// Gives one byte at a read.
#[derive(Drop)]
struct Dripping {
    bytes: Vec<u8>,
    at: usize,
}

impl io::Read for Dripping {
    fn read(&mut self, buf: &mut [u8]) -> io::Result<usize> {
        let Some(byte) = self.bytes.get(self.at) else {
            return Ok(0);
        };
        if buf.is_empty() {
            return Ok(0);
        }
        buf[0] = *byte;
        self.at = self.at.saturating_add(1);
        Ok(1)
    }
}

#[test]
fn other_sources_and_sinks_serve_too(rt: HostRuntime) -> Result<(), Fail> {
    let alloc = rt.alloc();
    let words = words_of(alloc, "run")?;
    let bytes = INPUT.as_bytes().to_vec(alloc)?;
    let mut source = ReaderSource::over(Dripping { bytes, at: 0 });
    let mut out = MemorySink::with_room(alloc, 4096, Vec::new(alloc))?;
    let status = run_alone(alloc, &words, &mut source, &mut out, &mut QuietSink);
    assert_eq!(rt; status.map(Status::number), Some(0));
    assert_eq!(rt; out.written(), REPORT.as_bytes());
    let mut source = QuietSource::over(INPUT.as_bytes().to_vec(alloc)?);
    let status = run_alone(alloc, &words, &mut source, &mut QuietSink, &mut QuietSink);
    assert_eq!(rt; status.map(Status::number), Some(0));
    Ok(())
}
