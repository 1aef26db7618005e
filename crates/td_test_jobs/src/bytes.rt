//! Sources and sinks over streams, and a text that is read whole with ample memory. What a source or sink in memory answers, its
//! clauses say.

use std::io;
use std::test::*;
use td_io::{
    QuietSink, QuietSource, ReadError, ReaderSource, WriteFault, WriterSink, read_whole, write_all,
};

/// Gives one byte at a read, so many times, and fails at a read past that where it is `broken`.
#[derive(Drop)]
struct Dripping {
    left: u64,
    broken: bool,
}

impl io::Read for Dripping {
    fn read(&mut self, buf: &mut [u8]) -> io::Result<usize> {
        if self.left == 0 && self.broken {
            return Err(io::Error::from(io::ErrorKind::BrokenPipe));
        }
        if self.left == 0 || buf.is_empty() {
            return Ok(0);
        }
        self.left -= 1;
        buf[0] = b'x';
        Ok(1)
    }
}

/// Takes one byte at a write, so many times, and then nothing.
#[derive(Drop)]
struct Clogging {
    room: u64,
}

impl io::Write for Clogging {
    fn write(&mut self, buf: &[u8]) -> io::Result<usize> {
        if self.room == 0 || buf.is_empty() {
            return Ok(0);
        }
        self.room -= 1;
        Ok(1)
    }

    fn flush(&mut self) -> io::Result<()> {
        Ok(())
    }
}

#[test]
fn a_quiet_source_is_read_whole(rt: HostRuntime) -> Result<(), Fail> {
    let mut quiet = QuietSource::over(b"abc".to_vec(rt.alloc())?);
    let read = read_whole(rt.alloc(), &mut quiet, 3)?;
    assert_eq!(rt; read.as_slice(), b"abc".as_slice());
    Ok(())
}

#[test]
fn streams_are_read_byte_by_byte(rt: HostRuntime) -> Result<(), Fail> {
    for (left, broken, limit, want) in [
        (0, false, 0, Ok(0)),
        (5000, false, 5000, Ok(5000)),
        (5001, false, 5000, Err(ReadError::TooLong)),
        (u64::MAX, false, 9, Err(ReadError::TooLong)),
        (7, true, 9, Err(ReadError::Fault)),
    ] {
        let mut source = ReaderSource::over(Dripping { left, broken });
        let read = read_whole(rt.alloc(), &mut source, limit);
        drop(source);
        assert_eq!(rt; read.map(|v| v.len()), want, "{left} bytes, limit {limit}");
    }
    Ok(())
}

#[test]
fn streams_are_written_until_they_take_nothing(rt: HostRuntime) -> Result<(), Fail> {
    for (room, want) in [(3, Ok(())), (2, Err(WriteFault))] {
        let mut sink = WriterSink::over(Clogging { room });
        let found = write_all(&mut sink, b"abc");
        drop(sink);
        assert_eq!(rt; found, want, "room {room}");
    }
    assert_eq!(rt; write_all(&mut QuietSink, b"abc"), Ok(()));
    Ok(())
}
